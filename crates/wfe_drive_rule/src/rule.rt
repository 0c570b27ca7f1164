// The rule of the shared table, and what its steps tell. (The table's own crate calls a handle a seat.)
use crate::kept::Kept;
use atomic_table::{Join, Play, Split, TableRule};
use std::alloc::Global;
use std::marker::Model;
use wfe_core::Layout;

/// The words that threads share, with a slot for each seat.
pub type Ledger = atomic_table::Shared<Option<Kept>, HandleView, Layout, HistoryRule>;

/// The same with its memory.
pub type OwnedLedger = atomic_table::Table<Option<Kept>, HandleView, Layout, HistoryRule, Global>;

/// What a thread makes the steps of a seat with. It takes no bytes, and may go to another thread.
pub type Handle = atomic_table::Seat<Option<Kept>, HandleView>;

/// What a handle knows. Proofs alone speak of it, and no value is made.
#[derive(Drop)]
pub struct HandleView;

impl Model for HandleView {
    ghost use Rattle.wfe_drive_rule.specs.Views.{View, spent};

    ghost Value = { View };

    ghost view = { λ _. spent };
}

/// A history comes to the World that the words and the views show.
pub struct HistoryRule;

impl TableRule<Option<Kept>, HandleView, Layout> for HistoryRule {
    ghost use Rattle.wfe_drive_rule.specs.Rule.{Holds};
    ghost use Rattle.wfe_drive_rule.specs.Views.{first_view};

    ghost holds = { Holds };

    ghost first = { first_view };
}

// A seat makes a step, of whichever kind.
pub(crate) struct OneStep;

impl Play<Option<Kept>, HandleView> for OneStep {
    ghost use Rattle.wfe_drive_rule.specs.Moves.{StepsOnce};

    ghost then = { StepsOnce };
}

// A seat leaves, and its slot goes home with its list.
pub(crate) struct HandList;

impl Play<Option<Kept>, HandleView> for HandList {
    ghost use Rattle.wfe_drive_rule.specs.Moves.{Hands};

    ghost then = { Hands };
}

// A seat takes over the list of a place with that place's slot, if it finds one that was left.
pub(crate) struct AdoptList;

impl Play<Option<Kept>, HandleView> for AdoptList {
    ghost use Rattle.wfe_drive_rule.specs.Moves.{Adopts};

    ghost then = { Adopts };
}

// A seat marks the list of a place as taken over, and that place's slot goes home.
pub(crate) struct MarkPlace;

impl Play<Option<Kept>, HandleView> for MarkPlace {
    ghost use Rattle.wfe_drive_rule.specs.Moves.{Marks};

    ghost then = { Marks };
}

// A handle takes its slot.
pub(crate) struct TakeSlot;

impl Play<Option<Kept>, HandleView> for TakeSlot {
    ghost use Rattle.wfe_drive_rule.specs.Moves.{Takes};

    ghost then = { Takes };
}

// A handle gives its slot back.
pub(crate) struct GiveSlot;

impl Play<Option<Kept>, HandleView> for GiveSlot {
    ghost use Rattle.wfe_drive_rule.specs.Moves.{Gives};

    ghost then = { Gives };
}

// One seat more is made.
pub(crate) struct OneMore;

impl Split<HandleView> for OneMore {
    ghost use Rattle.wfe_drive_rule.specs.Moves.{newcomer, one_more};

    ghost left = { one_more };

    ghost right = { newcomer };
}

// One handle takes in another.
pub(crate) struct TakeIn;

impl Join<HandleView> for TakeIn {
    ghost use Rattle.wfe_drive_rule.specs.Moves.{taken_in};
    ghost use Rattle.wfe_drive_rule.specs.Views.{spent};

    ghost both = { taken_in };

    ghost spent = { spent };
}

// How far a seat's history is known goes to a handle of its own.
pub(crate) struct TellNews;

impl Split<HandleView> for TellNews {
    ghost use Rattle.wfe_drive_rule.specs.Moves.{same_view, told_of};

    ghost left = { same_view };

    ghost right = { told_of };
}

// A handle has what another tells.
pub(crate) struct TakeNews;

impl Join<HandleView> for TakeNews {
    ghost use Rattle.wfe_drive_rule.specs.Moves.{hearing};
    ghost use Rattle.wfe_drive_rule.specs.Views.{spent};

    ghost both = { hearing };

    ghost spent = { spent };
}

// A seat's past begins with what its handle has heard.
pub(crate) struct HearNews;

impl Play<Option<Kept>, HandleView> for HearNews {
    ghost use Rattle.wfe_drive_rule.specs.Moves.{Hears};

    ghost then = { Hears };
}
