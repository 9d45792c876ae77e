// The record of an entry whose last line has been read.
ghost use Rattle.std.specs.Prelude.{◌≡◌};
ghost use Rattle.said.specs.Said.{said_of};
ghost use Rattle.stored.specs.Closing.{entry_record};

use records::calls::Share;
use said::said::Operation;
use script::records::Entry;

// The record of an entry, behind x expectations; n of these are its own.
#[tactic(auto, unfolding(stored::specs::Closing::entry_record))]
pub fn entry_of(line: usize, operation: Operation<'_>, share: Share, x: usize, n: usize) -> Entry
    ensures { result ≡ entry_record operation.entry.said.text.now line operation.entry.opening (said_of operation.entry.said.heard.now) share.items_before share.bytes_before share.sizes x n }
{
    Entry {
        line,
        timestamp_ms: operation.opening.stamp,
        op_call: op_records::call_of(operation, share),
        expects: records::calls::range_of(x, n),
    }
}
