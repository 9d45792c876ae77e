// The lines up to the next opening line.
ghost use Rattle.std.specs.Prelude.{◌≡◌, ◌+◌, ◌≤◌, length};
ghost use Rattle.script.specs.Contents as Contents;
ghost use Rattle.script.specs.Contents.{last_of, lead, sayings};
ghost use Rattle.said.specs.Said.{said_of};
ghost use Rattle.written.specs.Writing.{Room, wrote};
ghost use Rattle.below.specs.Below.{roles_at, ahead, ahead_of, NextIn, pairs_items};

use said::said::Heard;
use script::records::Expectation;
use script::roles::{Opening, Role, Where};
use turns::Measured;
use written::Writer;

// An opening line, by its number, and where the line below it begins and stands.
#[derive(Clone, Copy)]
pub struct Ahead {
    pub line: usize,
    pub opening: Opening,
    pub at: usize,
    pub stands: Where,
}

// Reads the lines from a place on up to the next opening line, and says what that is; none where the text ends.
pub fn read_lines(
    m: Measured<'_>,
    from: usize,
    first: usize,
    stands: Where,
    heard: &mut Heard,
    options: bool,
    items: &mut Writer<[usize; 2]>,
    expectations: &mut Writer<Expectation>,
) -> Option<Ahead>
    requires from_in_bounds { from ≤ length m.text.now }
    requires first_bound { first ≤ from + 1 }
    requires room { Room (length (pairs_items options (sayings (lead (roles_at m.text.now stands from first))))) items.old }
    requires expectations_room { Room (length (Contents.expectations (lead (roles_at m.text.now stands from first)))) expectations.old }
    ensures next_value { ahead_of m.entry.text.now result ≡ ahead (roles_at m.entry.text.now stands from first) }
    ensures next_in { NextIn m.entry.text.now from result }
    ensures after { items.new ≡ wrote (pairs_items options (sayings (lead (roles_at m.entry.text.now stands from first)))) items.old }
    ensures expectations_after { expectations.new ≡ wrote (Contents.expectations (lead (roles_at m.entry.text.now stands from first))) expectations.old }
    ensures heard_after { (k : _) → said_of heard.new k ≡ last_of k (said_of heard.old k) (sayings (lead (roles_at m.entry.text.now stands from first))) }
{
    let mut w = stands;
    let mut at = from;
    let mut number = first;
    // No iterator gives these lines: where the next one stands depends on what this one is.
    while at < m.text.len() {
        let turn = m.look(w, at, number);
        match turn.step.role {
            Role::Nothing | Role::Bad(_) => {}
            Role::Says(s) => says::say(s, heard, options, items),
            Role::Expects(expect) => {
                let line = number;
                expectations.put_one(Expectation { line, expect });
            }
            Role::Opens(opening) => {
                return Some(Ahead {
                    line: number,
                    opening,
                    at: turn.next,
                    stands: turn.step.next,
                });
            }
        }
        w = roles::steps::same_place(turn.step.next);
        at = turn.next;
        number += 1;
    }
    None
}
