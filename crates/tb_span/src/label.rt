//! One node's label and its comparisons.

ghost use Rattle.std.specs.Prelude.{◌≡◌, ◌+◌, ◌^◌, ◌<◌, ◌↔◌, IsTrue, IsSome, IfSome};
ghost use Rattle.tb_span.specs.Span.{HasNumbers};

use crate::Steps;
use std::marker::Model;
use std::sync::ledger::Ledger;

/// The interval that a node takes in its document, and how many nodes stand above it.
///
/// Labels are compared by three calls alone, and each of them counts one step.
#[derive(Clone, Copy, Debug)]
pub struct Label {
    start: u32,
    end: u32,
    level: u16,
}

impl Model for Label {
    ghost use Rattle.std.specs.Prelude.{◌<◌, ◌^◌};
    ghost use Rattle.tb_span.specs.Span.{Span};

    ghost Value = { Span };

    ghost view = { λ l. record { start = l.start; end = l.end; level = l.level } };

    // That a number is short is known of each u32; it stands here so that callers can learn it.
    ghost invariant = { λ l. (l.start < l.end) × (l.end < 2 ^ 32) };

    ghost inverse = { λ s. record { start = s.start; end = s.end; level = s.level } };
}

impl Label {
    /// A label, or `None` where it would end no later than it starts.
    pub fn new(start: u32, end: u32, level: u16) -> Option<Label>
        ensures ordered { IsSome result ↔ (start < end) }
        ensures numbers { IfSome result (HasNumbers start end level) }
    {
        if start < end {
            Some(Label { start, end, level })
        } else {
            None
        }
    }

    /// Whether this node starts before the other.
    pub fn starts_before<L: Ledger>(&self, other: &Label, steps: &mut Steps<L>) -> bool
        ensures tells { IsTrue result ↔ (self.now.start < other.now.start) }
        ensures counts { steps.new ≡ steps.old + 1 }
    {
        steps.tick();
        self.start < other.start
    }

    /// Whether this node ends before the other starts.
    pub fn ends_before<L: Ledger>(&self, other: &Label, steps: &mut Steps<L>) -> bool
        ensures tells { IsTrue result ↔ (self.now.end < other.now.start) }
        ensures counts { steps.new ≡ steps.old + 1 }
    {
        steps.tick();
        self.end < other.start
    }

    /// Whether this node stands one level below the other.
    pub fn is_level_below<L: Ledger>(&self, other: &Label, steps: &mut Steps<L>) -> bool
        ensures tells { IsTrue result ↔ (other.now.level + 1 ≡ self.now.level) }
        ensures counts { steps.new ≡ steps.old + 1 }
    {
        steps.tick();
        u32::from(other.level) + 1 == u32::from(self.level)
    }

    /// Every label ends behind its start, and its numbers are short. Nothing is compared.
    pub fn interval(&self)
        ensures behind { self.now.start < self.now.end }
        ensures short { self.now.end < 2 ^ 32 }
    {
        let _ = &self.start;
    }
}
