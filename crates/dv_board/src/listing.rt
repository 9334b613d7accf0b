// The items that a closed table keeps, as a list.
ghost use Rattle.std.specs.Prelude.{◌≡◌, ◌+◌, ◌-◌, ◌<◌, ◌≤◌, length, replicate, true, false};
ghost use Rattle.std.specs.Slots.{slots_items, slots_len, IsFull};
ghost use Rattle.dv_board.specs.Listing.{AreBelow, AreMarked, marked};

use atomic_table::Closed;
use std::alloc::Global;

// Marks the items of the taken slots, of which there are `slots`.
pub fn mark_taken(closed: &Closed<u8, Global>, slots: usize, marks: &mut Vec<bool>)
    requires full { IsFull closed.now.words }
    requires slots { slots ≡ slots_len closed.now.words }
    requires below { AreBelow (length marks.old.items) (slots_items closed.now.words) }
    requires none { marks.old.items ≡ replicate (length marks.old.items) false }
    ensures len { length marks.new.items ≡ length marks.old.items }
    ensures marks { AreMarked (slots_items closed.now.words) slots marks.new.items }
{
    for slot in 0..slots {
        let word = closed.word(slot);
        if word != 0 {
            marks[(word - 1) as usize] = true;
        }
    }
}

// The marked numbers, ascending, in the room that is given.
pub fn list_marked(marks: &[bool], mut room: Vec<u32>) -> Vec<u32>
    requires room { length room.items ≡ length marks.now }
    requires small { length marks.now ≤ 2000000 }
    ensures { result.items ≡ marked marks.now (length marks.now) }
{
    let mut listed = 0usize;
    for item in 0..marks.len() {
        if marks[item] {
            room[listed] = item as u32;
            listed += 1;
        }
    }
    room.truncate(listed);
    room
}
