// The rule of a board's word, and what each kind of step does to a seat's view.
use crate::views::{BoardView, Sizes};
use atomic_table::{Join, Play, Split, TableRule};
use std::marker::{Brand, PhantomData};

pub struct BoardRule;

impl TableRule<u8, BoardView, Sizes> for BoardRule {
    ghost use Rattle.dv_board.specs.BoardRule.{Holds, first_view};

    ghost holds = { Holds };

    ghost first = { first_view };
}

pub struct Claim;

impl Play<u8, BoardView> for Claim {
    ghost use Rattle.dv_board.specs.BoardRule.{Drew};

    ghost then = { Drew };
}

/// A share that is known only when the program runs: a caller picks it by `Brand`.
pub trait Portion {
    ghost use Rattle.std.specs.Prelude.{ℕ};

    ghost share: { ℕ };
}

impl Portion for Brand {
    ghost share = { 0 };
}

pub struct Cut<P: Portion>(PhantomData<P>);

impl<P: Portion> Split<BoardView> for Cut<P> {
    ghost use Rattle.dv_board.specs.BoardRule.{less, portion};

    ghost left = { less P.share };

    ghost right = { portion P.share };
}

pub struct Merge;

impl Join<BoardView> for Merge {
    ghost use Rattle.dv_board.specs.BoardRule.{both_of, nobody};

    ghost both = { both_of };

    ghost spent = { nobody };
}
