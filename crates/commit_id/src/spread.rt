//! What the sections of a journal show, one after the other: how far each number reaches, and how
//! many sections are wholly of it.
ghost use Rattle.std.specs.Prelude.{◌≡◌, ℕ, ◌+◌, ◌-◌, ◌^◌, ◌<◌, ◌≤◌, ◌==◌, nat_lt, ◌&&◌, if◌then◌else◌, slice_index};
ghost use Rattle.image_model.specs.Scan.{Grid as Journal};
ghost use Rattle.image_model.specs.Walk.{later, newest, plan_by};
ghost use Rattle.commit_id.specs.Spread.{IsSpread, has_reached};

use crate::plan::plan_by;
use image_model::Plan;

/// How far each number reaches over the first sections of a journal.
#[derive(Drop)]
pub(crate) struct Spread {
    /// One more than the last section that holds each number.
    reach: [u64; 4],
    /// How many sections from 0 on are wholly of each number.
    whole: [u64; 4],
}

impl Spread {
    /// The spread over no section.
    pub(crate) fn new() -> Spread
        ensures { (grid : Journal) → IsSpread grid 0 result }
    {
        Spread {
            reach: [0; 4],
            whole: [0; 4],
        }
    }

    /// The newest of the numbers that occur. None where all four do.
    pub(crate) fn newest(&self) -> Option<u8>
        ensures { result ≡ newest (has_reached self.now) }
    {
        for number in 0..4 {
            if self.reach[number] > 0 && self.reach[(number + 1) % 4] == 0 {
                return Some(number as u8);
            }
        }
        None
    }

    /// The plan of a journal of so many sections, by its newest number.
    pub(crate) fn plan(&self, sections: u64, newest: u8) -> Plan
        requires newest { newest < 4 }

        ensures { result ≡ plan_by sections (has_reached self.now (later 2 newest))
            (slice_index self.now.reach newest) (slice_index self.now.whole newest) newest }
    {
        let two_on = (newest + 2) % 4;
        plan_by(
            sections,
            self.reach[two_on as usize] > 0,
            self.reach[newest as usize],
            self.whole[newest as usize],
            newest,
        )
    }

    /// Adds section `section`, of `sectors` sectors, by how many sectors before it bear each number
    /// and how many with it do.
    pub(crate) fn add(&mut self, section: u64, sectors: u64, before: &[u64; 4], with: &[u64; 4])
        requires section { section < 2 ^ 63 }
        requires more { (number : ℕ) → number < 4
            → slice_index before.now number ≤ slice_index with.now number }

        ensures reach { (number : ℕ) → number < 4 → slice_index self.new.reach number
            ≡ (if nat_lt 0 (slice_index with.now number - slice_index before.now number)
            then section + 1 else slice_index self.old.reach number) }
        ensures whole { (number : ℕ) → number < 4 → slice_index self.new.whole number
            ≡ (if slice_index with.now number - slice_index before.now number == sectors
            && slice_index self.old.whole number == section
            then section + 1 else slice_index self.old.whole number) }
    {
        for number in 0..4 {
            let here = with[number] - before[number];
            if here > 0 {
                self.reach[number] = section + 1;
            }
            if here == sectors && self.whole[number] == section {
                self.whole[number] = section + 1;
            }
        }
    }
}
