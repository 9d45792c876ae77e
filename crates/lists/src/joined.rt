// Lists of texts, written.
ghost use Rattle.std.specs.Prelude.{◌≡◌, length};
ghost use Rattle.written.specs.Writing.{Room, wrote};
ghost use Rattle.verdicts.specs.Lookup.{joined, bracketed, braced};
ghost use Rattle.lists.specs.Lists.{item_texts, behind};

use texts::part_of;
use written::Writer;

// The texts of some items, `, ` in front of each.
fn put_behind(bytes: &[u8], items: &[[usize; 2]], w: &mut Writer<u8>)
    requires { Room (length (behind (item_texts bytes.now items.now))) w.old }
    ensures { w.new ≡ wrote (behind (item_texts bytes.now items.now)) w.old }
{
    for item in items {
        w.put(b", ");
        w.put(part_of(bytes, item[0], item[1]));
    }
}

// The texts, `, ` between them.
pub fn put_joined(bytes: &[u8], items: &[[usize; 2]], w: &mut Writer<u8>)
    requires { Room (length (joined (item_texts bytes.now items.now))) w.old }
    ensures { w.new ≡ wrote (joined (item_texts bytes.now items.now)) w.old }
{
    if let Some((item, rest)) = items.split_first() {
        w.put(part_of(bytes, item[0], item[1]));
        put_behind(bytes, rest, w);
    }
}

// The texts in brackets.
pub fn put_bracketed(bytes: &[u8], items: &[[usize; 2]], w: &mut Writer<u8>)
    requires { Room (length (bracketed (item_texts bytes.now items.now))) w.old }
    ensures { w.new ≡ wrote (bracketed (item_texts bytes.now items.now)) w.old }
{
    w.put(b"[");
    put_joined(bytes, items, w);
    w.put(b"]");
}

// The texts in braces, a blank inside of each.
pub fn put_braced(bytes: &[u8], items: &[[usize; 2]], w: &mut Writer<u8>)
    requires { Room (length (braced (item_texts bytes.now items.now))) w.old }
    ensures { w.new ≡ wrote (braced (item_texts bytes.now items.now)) w.old }
{
    w.put(b"{ ");
    put_joined(bytes, items, w);
    w.put(b" }");
}
