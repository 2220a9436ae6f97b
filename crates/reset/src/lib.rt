// What \r has left at an instant, with nothing else of the state worked out.
#![tactic(auto)]

ghost use Rattle.std.specs.Prelude.{◌≡◌};
ghost use Rattle.table.specs.Inner.{Inside};
ghost use Rattle.evaluators.specs.Inner.{tags_at};
ghost use Rattle.tag.specs.Decode.{tags_of};
ghost use Rattle.state.specs.State.{reset_to};
ghost use Rattle.state.specs.Apply.{evaluate_at};
ghost use Rattle.reset.specs.Reset.{Leaves};

use apply::values::reset_of;
use state::Part;

// What the tags of the `count` records from `first` on make of s, one after the other. A T that has not begun changes nothing.
fn reset_tags(
    table: &[u32],
    first: usize,
    count: usize,
    s: Option<Option<Part>>,
    t: i32,
    dur: i32,
) -> Option<Option<Part>>
    requires { Inside table.now first count }
    ensures { Leaves t dur (tags_at table.now first count) s result }
{
    let mut reset = s;
    let mut at = first;
    let mut left = count;
    // No `for`: behind a T the place goes on past what is inside it.
    while 0 < left {
        let r = table::record_at(table, at);
        at += 1;
        left -= 1;
        match r.kind {
            41 => reset = Some(reset_of(r.w1, r.w2, r.w3)),
            49 => {
                let n = (r.w5 as usize).min(left);
                if mix::factor(r.w1, r.w2, r.w3, r.w4, t, dur) > 0.0 {
                    reset = reset_tags(table, at, n, reset, t, dur);
                }
                at += n;
                left -= n;
            }
            _ => {}
        }
    }
    reset
}

// What \r has left of a table's tags at t.
pub fn reset_left(table: &[u32], t: i32, dur: i32) -> Option<Option<Part>>
    ensures { result ≡ reset_to (evaluate_at t dur (tags_of table.now)) }
{
    reset_tags(table, 0, table.len() / 8, None, t, dur)
}
