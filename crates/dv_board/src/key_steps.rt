// The rule of a key table's words, and what each kind of step does to a seat's view.
use crate::board_steps::Portion;
use crate::views::KeyView;
use atomic_table::{Join, Play, Split, TableRule};
use std::marker::{Brand, PhantomData};

/// The table is told how many words it has.
pub struct KeyRule;

impl TableRule<u8, KeyView, usize> for KeyRule {
    ghost use Rattle.dv_board.specs.KeyRule.{IsKept, fresh_view};

    ghost holds = { IsKept };

    ghost first = { λ _. fresh_view };
}

/// What the items are, which no value can tell a table: a caller picks it by `Brand`.
pub trait About {
    ghost use Rattle.dv_board.specs.declared.views.Keys.{Keys};

    ghost keys: { Keys };
}

impl About for Brand {
    ghost use Rattle.std.specs.Prelude.{[]};

    ghost keys = { record { classes = []; homes = [] } };
}

pub struct Begin<A: About>(PhantomData<A>);

impl<A: About> Play<u8, KeyView> for Begin<A> {
    ghost use Rattle.dv_board.specs.KeyRule.{Begun};

    ghost then = { Begun A.keys };
}

/// The item of an offer, which a load can't be told: a caller picks it by `Brand`.
pub trait Offer {
    ghost use Rattle.std.specs.Prelude.{ℕ};

    ghost item: { ℕ };
}

impl Offer for Brand {
    ghost item = { 0 };
}

pub struct Look<O: Offer>(PhantomData<O>);

impl<O: Offer> Play<u8, KeyView> for Look<O> {
    ghost use Rattle.dv_board.specs.KeyRule.{Looked};

    ghost then = { Looked O.item };
}

pub struct Peek;

impl Play<u8, KeyView> for Peek {
    ghost use Rattle.dv_board.specs.KeyRule.{Peeked};

    ghost then = { Peeked };
}

pub struct Place;

impl Play<u8, KeyView> for Place {
    ghost use Rattle.dv_board.specs.KeyRule.{Met};

    ghost then = { Met };
}

pub struct Lower;

impl Play<u8, KeyView> for Lower {
    ghost use Rattle.dv_board.specs.KeyRule.{Lowered};

    ghost then = { Lowered };
}

pub struct CutOffers<P: Portion>(PhantomData<P>);

impl<P: Portion> Split<KeyView> for CutOffers<P> {
    ghost use Rattle.dv_board.specs.KeyRule.{less, portion};

    ghost left = { less P.share };

    ghost right = { portion P.share };
}

pub struct MergeOffers;

impl Join<KeyView> for MergeOffers {
    ghost use Rattle.dv_board.specs.KeyRule.{both_of, nobody};

    ghost both = { both_of };

    ghost spent = { nobody };
}
