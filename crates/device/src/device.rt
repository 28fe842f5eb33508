//! The device.
ghost use Rattle.std.specs.Prelude.{◌≡◌, ◌↔◌, ◌+◌, ◌<◌, ◌^◌, suc, false, Err, IfErr, IfOk, IsTrue, Ok, true};
ghost use Rattle.disk_model.specs.Identity.{IsBound};
ghost use Rattle.hmac_tag.specs.TagMaker.{key_of};
ghost use Rattle.request_slots.specs.Flight.{is_in_flight, slot_of, turn_of};
ghost use Rattle.request_slots.specs.Taking.{after_take, taken_by};
ghost use Rattle.request_slots.specs.Submitting.{answer_by};
ghost use Rattle.device_parts.specs.Answers.{HasStepCause, TurnsBroken, IsUnreadStep};
ghost use Rattle.device_parts.specs.declared.answers.Served.TheVariants.{Did, NoRoom};
ghost use Rattle.device_model.specs.Actors.{actor_of};
ghost use Rattle.device_model.specs.Progress.{Close, FailedServe, Step};
ghost use Rattle.device.specs.Answers.{FindsNothing, GoesOn, HasNoWork, KeepsClearTags, NeedsNoRead};
ghost use Rattle.device.specs.Calls.{Closes, GivesSerial, HasFewerTurns, Keeps, LeavesAtRest, Serves, StaysReady};
ghost use Rattle.device.specs.Calls.{Steps, Submits, Takes, WritesClosing, WritesServing, WritesStepping, refusal_to};
ghost use Rattle.device.specs.Calls.{with_submitted};
ghost use Rattle.device.specs.Device.{IsReady, mode_of, with_slots};
ghost use Rattle.device.specs.Opening.{HasNoFault, HasOpenedIn, IsRefused, IsSettledIn, LeavesOpening};
ghost use Rattle.device.specs.Telling.{Tells, has_room_in};
ghost use Rattle.image_refusal.specs.Calls.{HasRefusalCause};

use crate::{DeviceParts, OpenMode, Refused, closing, opening, serving, stepping, submitting};
use device_parts::{Actor, Condition, Moved, Served, StepFault};
use hmac_tag::Hash;
use request_slots::{Reply, Request, SubmitFault, Ticket};
use sector_disk::Disk;
use sector_pool::Region;
use std::alloc::Global;

/// A device in any mode, over a disk that it is lent until it is closed or gives that back.
#[derive(Drop)]
pub struct Device<'d, 'p, D: Disk> {
    pub(crate) disk: &'d mut D,
    pub(crate) parts: DeviceParts<'p>,
    pub(crate) condition: Condition,
}

impl<'d, 'p, D: Disk> Device<'d, 'p, D> {
    /// Opens a device on a disk in the mode that is asked for, whose tags are made by this hash. All memory that it
    /// ever takes is taken before the first write, and the region gets the journal's sectors. In each mode but
    /// recovery mode the disk is synced. In direct and journal mode all that a journal holds comes to its place, and
    /// each region awaits that has a block which is to be recalculated. In direct mode the journal is then emptied,
    /// unless every entry of it is unused and it has one commit number: no image of the disk has an entry that counts
    /// then. Where there is a bitmap each region whose bit is set is recalculated, and it becomes an empty journal. In
    /// bitmap mode each region awaits whose bit is set, and nothing is written; where there is a journal it is
    /// recovered and emptied, each region that awaits is recalculated, and it becomes a bitmap of which no bit is set.
    /// In recovery mode the disk is called for one read.
    ///
    /// # Errors
    ///
    /// The disk comes back. `Memory` and `Disk` come whenever they hold, and of the others the first that holds:
    ///
    /// - `Memory`: there is none for what the device keeps, or for what the journal's sectors bear. Nothing was done.
    /// - `Disk`: the disk failed.
    /// - `Head`: the first sector is refused. A disk without a sector has no magic. Nothing was done.
    /// - `Consent`: a bit of a bitmap is set, or without one some block is to be recalculated, there is a key, and
    ///   consent is withheld; in recovery mode it is not asked for. Nothing was done.
    /// - `Journal`: the journal is refused, which is not read in recovery mode, nor where there is a bitmap. Nothing
    ///   was done.
    pub fn open(
        alloc: Global,
        disk: &'d mut D,
        pool: &'p mut Region,
        hash: Hash,
        mode: OpenMode,
    ) -> Result<Device<'d, 'p, D>, Refused<'d, D>>
        requires { IsBound (D.identity disk.old).name }

        ensures opened { IfOk result (λ d. HasOpenedIn mode (key_of hash) (D.identity disk.old)
            (D.moments disk.old) (D.moments d.disk.now) d.parts) }
        ensures accepted { IfOk result (λ d. HasNoFault mode (key_of hash) (D.identity disk.old).sectors
            (D.moments disk.old)) }
        ensures settled { IfOk result (λ d. IsSettledIn mode (D.moments d.disk.now)) }
        ensures works { IfOk result (λ d. d.condition ≡ Condition.Working) }
        ensures leaves { IfOk result (λ d. LeavesOpening mode (key_of hash) (D.identity disk.old)
            (D.identity d.disk.now) (D.moments disk.old) (D.moments d.disk.now)) }
        ensures same_disk { IfOk result (λ d. d.disk.ghost_name ≡ disk.entry.ghost_name) }
        ensures passed { IfOk result (λ d. D.faults d.disk.now ≡ D.faults disk.old) }

        ensures cause { IfErr result (λ r.
            HasRefusalCause (D.faults disk.old) (D.faults r.disk.now) r.fault) }
        ensures refused { IfErr result (λ r. IsRefused mode (key_of hash) (D.identity disk.old)
            (D.moments disk.old) (D.moments r.disk.now) r.fault) }
        ensures err { IfErr result (λ r. LeavesOpening mode (key_of hash) (D.identity disk.old)
            (D.identity r.disk.now) (D.moments disk.old) (D.moments r.disk.now)) }
        ensures same_disk_back { IfErr result (λ r. r.disk.ghost_name ≡ disk.entry.ghost_name) }
    {
        match opening::open(alloc, disk, pool, hash, mode) {
            Ok(parts) => Ok(Device {
                disk,
                parts,
                condition: Condition::Working,
            }),
            Err(fault) => Err(Refused { fault, disk }),
        }
    }

    /// How many blocks it has.
    pub fn blocks(&self) -> u64
        ensures { result ≡ self.now.parts.common.slots.blocks }
    {
        self.parts.common.slots.blocks()
    }

    /// How many bytes a block has.
    pub fn block_size(&self) -> usize
        ensures { result ≡ self.now.parts.common.slots.block_size }
    {
        self.parts.common.slots.block_size()
    }

    /// Whether there is a ticket for one more request: fewer than 2^64 - 1 were submitted. The condition of `submit`.
    pub fn has_ticket(&self) -> bool
        ensures { IsTrue result ↔ (self.now.parts.common.slots.submitted + 1 < 2 ^ 64) }
    {
        self.parts.common.slots.has_ticket()
    }

    /// Whether the request of this ticket is submitted and not taken: the condition of the calls that name it.
    pub fn holds(&self, ticket: &Ticket) -> bool
        ensures { result ≡ is_in_flight ticket.now self.now.parts.common.slots }
    {
        self.parts.common.slots.holds(ticket)
    }

    /// Takes a request, which comes last in order.
    ///
    /// # Errors
    ///
    /// The request comes back with the first of these, and nothing is changed.
    ///
    /// - `Broken`: a disk has failed the device.
    /// - `ReadOnly`: it is a write, in recovery mode.
    /// - `Range`: it has no block, or one that is not there.
    /// - `Length`: it did not come with as many bytes as its blocks have.
    /// - `SlotsFull`: sixteen are submitted and not taken.
    pub fn submit(&mut self, request: Request) -> Result<Ticket, (Request, SubmitFault)>
        requires { self.old.parts.common.slots.submitted + 1 < 2 ^ 64 }

        ensures answer { result ≡ answer_by (refusal_to self.old.parts self.old.condition request)
            (suc self.old.parts.common.slots.submitted) request }
        ensures submitted { self.new.parts ≡ with_submitted self.old.parts self.old.condition request }
        ensures done { Submits request self.old.condition self.old.parts self.new.parts
            (D.moments self.old.disk.now) (D.moments self.new.disk.now) }

        ensures ready { StaysReady D.identity D.moments self.old.condition self.old.parts self.new.parts
            self.old.disk.now self.new.disk.now }
        ensures condition { self.new.condition ≡ self.old.condition }
        ensures disk { self.new.disk.now ≡ self.old.disk.now }
        ensures same_disk { self.new.disk.ghost_name ≡ self.old.disk.ghost_name }
    {
        submitting::submit(&mut self.parts, self.condition, request)
    }

    /// Does what is next for a request: reads or writes one block, or flushes. It does nothing of one that is done, or
    /// that waits for another one, or, in journal mode, whose block finds no room. A broken device makes no call of
    /// its disk.
    ///
    /// # Errors
    ///
    /// - `Disk`: the disk failed. The device is broken from then on, and the request gets no reply.
    /// - `Broken`: a disk has failed the device before.
    pub fn serve(&mut self, ticket: &Ticket) -> Result<Served, StepFault>
        requires ready { IsReady self.old.condition self.old.parts
            (D.identity self.old.disk.now) (D.moments self.old.disk.now) }
        requires there { is_in_flight ticket.now self.old.parts.common.slots ≡ true }

        ensures served { Serves ticket.now result self.old.condition self.old.parts self.new.parts
            (D.moments self.old.disk.now) (D.moments self.new.disk.now) }
        ensures goes_on { result ≡ Ok Did → HasFewerTurns ticket.now self.old.parts self.new.parts }
        ensures no_room { result ≡ Ok NoRoom → (self.new.parts ≡ self.old.parts)
            × (D.moments self.new.disk.now ≡ D.moments self.old.disk.now) }
        ensures tells { Tells ticket.now self.old.parts self.new.parts
            (has_room_in self.old.parts.mode ≡ false) result }

        ensures cause { HasStepCause (D.faults self.old.disk.now) (D.faults self.new.disk.now) result }
        ensures condition { TurnsBroken self.old.condition self.new.condition result
            self.old.disk.now self.new.disk.now }

        ensures keeps { Keeps result self.old.parts self.new.parts
            (D.identity self.old.disk.now) (D.identity self.new.disk.now) (D.moments self.new.disk.now) }
        ensures unread { NeedsNoRead self.old.parts.mode (turn_of self.old.parts.common.slots ticket.now)
            → D.reads self.new.disk.now ≡ D.reads self.old.disk.now }
        ensures tags { KeepsClearTags self.old.parts.mode self.old.parts.common (FailedServe ticket.now)
            (D.moments self.old.disk.now) (D.moments self.new.disk.now) }
        ensures writes { WritesServing self.old.condition ticket.now self.old.parts self.new.parts
            (D.moments self.old.disk.now) (D.moments self.new.disk.now) }
        ensures same_disk { self.new.disk.ghost_name ≡ self.old.disk.ghost_name }
    {
        serving::serve(self.disk, &mut self.parts, &mut self.condition, ticket)
    }

    /// Takes the reply to the request of this ticket, which is then no more in flight.
    ///
    /// # Errors
    ///
    /// The ticket comes back where the request is not done. Nothing is changed then.
    pub fn take(&mut self, ticket: Ticket) -> Result<Reply, Ticket>
        requires there { is_in_flight ticket self.old.parts.common.slots ≡ true }

        ensures reply { result ≡ taken_by ticket (slot_of ticket self.old.parts.common.slots) }
        ensures taken { self.new.parts ≡ with_slots self.old.parts (after_take ticket
            (slot_of ticket self.old.parts.common.slots) self.old.parts.common.slots) }
        ensures done { Takes ticket result self.old.condition self.old.parts self.new.parts
            (D.moments self.old.disk.now) (D.moments self.new.disk.now) }
        ensures serial { GivesSerial ticket self.old.condition self.old.parts (D.moments self.old.disk.now) result }

        ensures ready { StaysReady D.identity D.moments self.old.condition self.old.parts self.new.parts
            self.old.disk.now self.new.disk.now }
        ensures condition { self.new.condition ≡ self.old.condition }
        ensures disk { self.new.disk.now ≡ self.old.disk.now }
        ensures same_disk { self.new.disk.ghost_name ≡ self.old.disk.ghost_name }
    {
        submitting::take(&mut self.parts, ticket)
    }

    /// Lets an actor do its next step. In journal mode a commit writes the opened sections, a place writes an entry to
    /// its place, and a settle frees sections; in bitmap mode a clean clears the bit of the least region that needs
    /// none and has no block of a request in flight. In each of these and in direct mode a recalculation takes the
    /// least region that awaits; without a bitmap it then moves the position, or clears the flag. Else there is nothing
    /// to do. A broken device makes no call of its disk.
    ///
    /// # Errors
    ///
    /// - `Disk`: the disk failed. The device is broken from then on.
    /// - `Broken`: a disk has failed the device before.
    pub fn step(&mut self, actor: Actor) -> Result<Moved, StepFault>
        requires { IsReady self.old.condition self.old.parts
            (D.identity self.old.disk.now) (D.moments self.old.disk.now) }

        ensures stepped { Steps actor result self.old.condition self.old.parts self.new.parts
            (D.moments self.old.disk.now) (D.moments self.new.disk.now) }
        ensures goes_on { result ≡ Ok Moved.Did → GoesOn actor self.old.parts.mode self.new.parts.mode }

        ensures cause { HasStepCause (D.faults self.old.disk.now) (D.faults self.new.disk.now) result }
        ensures condition { TurnsBroken self.old.condition self.new.condition result
            self.old.disk.now self.new.disk.now }

        ensures keeps { Keeps result self.old.parts self.new.parts
            (D.identity self.old.disk.now) (D.identity self.new.disk.now) (D.moments self.new.disk.now) }
        ensures unread { IsUnreadStep actor → D.reads self.new.disk.now ≡ D.reads self.old.disk.now }
        ensures slots { self.new.parts.common.slots ≡ self.old.parts.common.slots }
        ensures idle { result ≡ Ok Moved.Idle
            → FindsNothing actor self.old.parts self.new.parts self.old.disk.now self.new.disk.now }
        ensures tags { KeepsClearTags self.old.parts.mode self.old.parts.common (Step (actor_of actor))
            (D.moments self.old.disk.now) (D.moments self.new.disk.now) }
        ensures writes { WritesStepping self.old.condition actor self.old.parts
            (D.moments self.old.disk.now) (D.moments self.new.disk.now) }
        ensures quiet { HasNoWork (mode_of self.old.parts.mode) (actor_of actor)
            → self.new.disk.now ≡ self.old.disk.now }
        ensures same_disk { self.new.disk.ghost_name ≡ self.old.disk.ghost_name }
    {
        stepping::step(self.disk, &mut self.parts, &mut self.condition, actor)
    }

    /// Flushes all that was written, and gives the disk back; in journal mode all is committed, placed and settled, and
    /// in bitmap mode the bit of each region is cleared that does not await. Where tags are to be recalculated without
    /// a bitmap the position then moves to the regions that await still, and without one the flag is cleared. Requests
    /// that are unfinished are dropped. In recovery mode, and where it is broken, a device makes no call of its disk.
    ///
    /// # Errors
    ///
    /// - `Disk`: the disk failed.
    /// - `Broken`: a disk has failed the device before.
    pub fn close(self) -> (Result<(), StepFault>, &'d mut D)
        requires { IsReady self.condition self.parts (D.identity self.disk.now) (D.moments self.disk.now) }

        ensures closed { Closes result.0 self.entry.condition self.entry.parts
            (D.moments self.entry.disk.now) (D.moments result.1.now) }
        ensures rests { LeavesAtRest result.0 self.entry.condition self.entry.parts
            (D.moments self.entry.disk.now) (D.moments result.1.now) }

        ensures cause { HasStepCause (D.faults self.entry.disk.now) (D.faults result.1.now) result.0 }
        ensures broken { (self.entry.condition ≡ Condition.Broken) ↔ (result.0 ≡ Err StepFault.Broken) }

        ensures identity { D.identity result.1.now ≡ D.identity self.entry.disk.now }
        ensures kept { self.entry.condition ≡ Condition.Broken → result.1.now ≡ self.entry.disk.now }
        ensures same_disk { result.1.ghost_name ≡ self.entry.disk.ghost_name }

        ensures tags { KeepsClearTags self.entry.parts.mode self.entry.parts.common Close
            (D.moments self.entry.disk.now) (D.moments result.1.now) }
        ensures writes { WritesClosing self.entry.condition self.entry.parts
            (D.moments self.entry.disk.now) (D.moments result.1.now) }
    {
        let Device {
            disk,
            parts,
            condition,
        } = self;
        let closed = closing::close(disk, parts, condition);
        (closed, disk)
    }

    /// Gives the disk back as it is.
    pub fn give_back(self) -> &'d mut D
        ensures same_disk { result.ghost_name ≡ self.entry.disk.ghost_name }
        ensures disk { result.now ≡ self.entry.disk.now }
    {
        let Device {
            disk,
            parts,
            condition: _,
        } = self;
        drop(parts);
        disk
    }
}
