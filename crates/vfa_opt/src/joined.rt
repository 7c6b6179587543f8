//! Portions of a module, joined.

ghost use Rattle.std.specs.Prelude.{◌≡◌, ◌<◌, ◌+◌, ◌++◌, ◌^◌, flat_map, filter_map, slice_get, sum_by, IfOk, OnOk};
ghost use Rattle.std.specs.Option.{option_or};
ghost use Rattle.vfa_opt.specs.Works.{portion_accepted, portion_carried, portion_first, portion_notes, portion_out};

use crate::portions::Portion;
use std::alloc::{AllocError, Global};

/// What is made of a module.
#[derive(Debug, Drop)]
pub struct Text {
    /// The text.
    pub out: Vec<u8>,
    /// The notes on functions that stay as they are, a line each.
    pub notes: Vec<u8>,
}

/// How many bytes the texts have, as far as that can be counted. It is a hint on room.
fn room_for(portions: &[Portion]) -> usize {
    let mut count: usize = 0;
    for portion in portions {
        count = count.saturating_add(portion.out.len());
    }
    count
}

impl Portion {
    /// The text and the notes.
    pub fn text(self) -> Text
        ensures { result ≡ record { out = self.out; notes = self.notes } }
    {
        Text {
            out: self.out,
            notes: self.notes,
        }
    }

    /// Puts what is made of the next items last.
    fn append(&mut self, next: Portion) -> Result<(), AllocError>
        requires { self.old.carried + next.carried < 2 ^ 64 }
        ensures out { OnOk result (self.new.out.items ≡ self.old.out.items ++ next.out.items) }
        ensures notes { OnOk result (self.new.notes.items ≡ self.old.notes.items ++ next.notes.items) }
        ensures accepted { OnOk result (self.new.accepted.items ≡ self.old.accepted.items ++ next.accepted.items) }
        ensures carried { OnOk result (self.new.carried ≡ self.old.carried + next.carried) }
        ensures first { OnOk result (self.new.first_carried ≡ option_or self.old.first_carried next.first_carried) }
    {
        let Portion {
            out,
            notes,
            mut accepted,
            carried,
            first_carried,
        } = next;
        self.out.extend_from_slice(&out)?;
        self.notes.extend_from_slice(&notes)?;
        self.accepted.append(&mut accepted)?;
        self.carried += carried;
        self.first_carried = self.first_carried.take().or(first_carried);
        Ok(())
    }

    /// Puts what is made of all later items last, portion by portion.
    fn append_all(&mut self, later: Vec<Portion>) -> Result<(), AllocError>
        requires { self.old.carried + sum_by portion_carried later.items < 2 ^ 64 }
        ensures out { OnOk result (self.new.out.items ≡ self.old.out.items ++ flat_map portion_out later.items) }
        ensures notes { OnOk result (self.new.notes.items ≡ self.old.notes.items ++ flat_map portion_notes later.items) }
        ensures accepted { OnOk result (self.new.accepted.items ≡ self.old.accepted.items ++ flat_map portion_accepted later.items) }
        ensures carried { OnOk result (self.new.carried ≡ self.old.carried + sum_by portion_carried later.items) }
        ensures first { OnOk result (self.new.first_carried
            ≡ option_or self.old.first_carried (slice_get (filter_map portion_first later.items) 0)) }
    {
        self.out.reserve_exact(room_for(&later))?;
        'later: for next in later {
            self.append(next)?;
        }
        Ok(())
    }
}

/// The portions as one: the text of the first one grows by those of the later ones.
pub fn joined(alloc: Global, mut portions: Vec<Portion>) -> Result<Portion, AllocError>
    requires { sum_by portion_carried portions.items < 2 ^ 64 }
    ensures out { IfOk result (λ whole. whole.out.items ≡ flat_map portion_out portions.items) }
    ensures notes { IfOk result (λ whole. whole.notes.items ≡ flat_map portion_notes portions.items) }
    ensures accepted { IfOk result (λ whole. whole.accepted.items ≡ flat_map portion_accepted portions.items) }
    ensures carried { IfOk result (λ whole. whole.carried ≡ sum_by portion_carried portions.items) }
    ensures first { IfOk result (λ whole. whole.first_carried ≡ slice_get (filter_map portion_first portions.items) 0) }
{
    if portions.is_empty() {
        return Ok(Portion::new(alloc));
    }
    let mut whole = portions.remove(0);
    whole.append_all(portions)?;
    Ok(whole)
}
