ghost use Rattle.std.specs.Prelude.{◌≡◌, ℕ, ◌+◌, ◌-◌, ◌<◌, ◌≤◌, [], ◌++◌, ◌∷◌, ◌||◌, false, true, IfOk, IfSome, IfNone};
ghost use Rattle.dv_board.specs.Counting.{times, once_below};

use crate::board_steps::{BoardRule, Claim, Cut, Merge, Portion};
use crate::views::{BoardView, Sizes};
use atomic_table::{Seat, Table};
use std::alloc::{AllocError, Global};
use std::marker::{Brand, Model};

/// A counter from which workers draw the numbers of tasks, each number once. It is shared by `&`, and no call waits.
///
/// Contracts see which board it is, its number of tasks and its number of workers.
#[derive(Drop)]
pub struct Board {
    table: Table<u8, BoardView, Sizes, BoardRule, Global>,
    tasks: u32,
    workers: u32,
}

impl Model for Board {
    ghost use Rattle.std.specs.Prelude.{◌≡◌, ◌≤◌};
    ghost use Rattle.dv_board.specs.Boards.{BoardId};

    ghost Value = { BoardId };

    ghost view = { λ b. record { table = b.table.shared.table_id; tasks = b.tasks; workers = b.workers } };

    ghost invariant = { λ b. (b.table.shared.key.tasks ≡ b.tasks) × (b.table.shared.key.workers ≡ b.workers) × (b.table.shared.table_id.words ≡ 1) × (b.table.shared.table_id.slots ≡ 0) × (b.tasks ≤ 256) × (b.workers ≤ 64) };
}

/// A worker's right to draw from a board. Contracts see its board, the numbers that it has drawn, whether it has had a
/// None, and its share of the workers.
#[derive(Drop)]
pub struct BoardSeat {
    seat: Seat<u8, BoardView>,
}

impl Model for BoardSeat {
    ghost use Rattle.std.specs.Prelude.{◌≡◌, [], false};
    ghost use Rattle.dv_board.specs.Boards.{Claimant, claimant_of};

    ghost Value = { Claimant };

    ghost view = { λ s. claimant_of s.seat.table_id s.seat.me.0 };

    ghost invariant = { λ s. (s.seat.me.1 ≡ []) × (s.seat.me.0.is_spent ≡ false) };
}

impl Board {
    /// A board of the tasks numbered below `tasks`, and the seat that has the whole share, which is `workers`.
    ///
    /// For want of memory an `AllocError`.
    pub fn new(alloc: Global, tasks: u32, workers: u32) -> Result<(Board, BoardSeat), AllocError>
        requires tasks { tasks ≤ 256 }
        requires workers { (1 ≤ workers) × (workers ≤ 64) }
        ensures sizes { IfOk result (λ r. (r.0.tasks ≡ tasks) × (r.0.workers ≡ workers)) }
        ensures seat { IfOk result (λ r. r.1 ≡ record { board = r.0; claims = []; had_none = false; share = workers }) }
    {
        let sizes = Sizes { tasks, workers };
        let (table, seat) = Table::of_words(alloc, &[0u64], &sizes)?;
        let board = Board {
            table,
            tasks,
            workers,
        };
        Ok((board, BoardSeat { seat }))
    }

    /// Draws the next number. It is above all that the seat drew before, and no other claim of this board gets it.
    /// None where the numbers below the number of tasks are all drawn.
    pub fn claim(&self, seat: &mut BoardSeat) -> Option<u32>
        requires mine { seat.old.board ≡ self.now }
        requires fresh { seat.old.had_none ≡ false }
        ensures some { IfSome result (λ n. (n < self.now.tasks) × (seat.new ≡ record seat.old { claims = seat.old.claims ++ n ∷ [] })) }
        ensures later { IfSome result (λ n. (x : ℕ) → 1 ≤ times x seat.old.claims → x < n) }
        ensures few { self.now.tasks ≤ 256 }
        ensures none { IfNone result (seat.new ≡ record seat.old { had_none = true }) }
    {
        let number = self.table.shared.fetch_add::<Claim>(&mut seat.seat, 0, 1);
        if number < u64::from(self.tasks) {
            Some(number as u32)
        } else {
            None
        }
    }

    /// Cuts `share` off the seat's share for a new seat, which has drawn nothing.
    pub fn split(&self, seat: &mut BoardSeat, share: u32) -> BoardSeat
        requires mine { seat.old.board ≡ self.now }
        requires share { (1 ≤ share) × (share < seat.old.share) }
        ensures left { seat.new ≡ record seat.old { share = seat.old.share - share } }
        ensures right { result ≡ record seat.old { claims = []; share = share } }
    {
        self.cut::<Brand>(seat, share)
    }

    fn cut<P: Portion>(&self, seat: &mut BoardSeat, share: u32) -> BoardSeat
        requires mine { seat.old.board ≡ self.now }
        requires share { (1 ≤ share) × (share < seat.old.share) }
        requires picked { share ≡ P.share }
        ensures left { seat.new ≡ record seat.old { share = seat.old.share - share } }
        ensures right { result ≡ record seat.old { claims = []; share = share } }
    {
        let other = self.table.shared.split_seat::<Cut<P>>(&mut seat.seat);
        BoardSeat { seat: other }
    }

    /// Takes another seat of this board in, with what it has drawn and its share.
    pub fn join(&self, seat: &mut BoardSeat, other: BoardSeat)
        requires mine { (seat.old.board ≡ self.now) × (other.board ≡ self.now) }
        ensures both { seat.new ≡ record seat.old { claims = seat.old.claims ++ other.claims; had_none = seat.old.had_none || other.had_none; share = seat.old.share + other.share } }
    {
        let BoardSeat { seat: other } = other;
        self.table.shared.join_seat::<Merge>(&mut seat.seat, other);
    }

    /// How many tasks were handed out. They are the numbers below it, each in the seat's claims once.
    /// Where the seat has had a None, all were.
    pub fn close(self, seat: BoardSeat) -> u32
        requires mine { seat.board ≡ self }
        requires whole { seat.share ≡ self.workers }
        ensures each_once { (x : ℕ) → times x seat.claims ≡ once_below x result }
        ensures below { result ≤ self.tasks }
        ensures all { seat.had_none ≡ true → result ≡ self.tasks }
    {
        let BoardSeat { seat } = seat;
        let Board {
            table,
            tasks,
            workers: _,
        } = self;
        let closed = table.close_with(seat);
        let number = closed.word(0);
        closed.free();
        if number < u64::from(tasks) {
            number as u32
        } else {
            tasks
        }
    }
}
