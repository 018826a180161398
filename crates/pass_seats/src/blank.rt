//! The tables of an engine, made ahead of its name, and its seats while it is made.

ghost use Rattle.std.specs.Prelude.{◌≡◌, ℕ, [], ◌+◌, ◌<◌, length, false, None, IfOk, OnOk};
ghost use Rattle.compat_scheduler.specs.Machines.{beginning};
ghost use Rattle.pass_seats.specs.Names.{table_at};
ghost use Rattle.pass_seats.specs.Opening.{fresh_cell, fresh_sched, IsFresh};

use crate::pass::Place;
use crate::{EngineNames, SeatCore};
use box_lock::BoxCell;
use compat_scheduler::SchedCore;
use loose_records::{BoxEntry, SchedEntry};
use quit_word::{QuitFirst, QuitWord};
use round_ledger::SchedCell;
use seuss_base::Memory;
use seuss_program::Vars;
use std::alloc::Global;
use std::marker::{Model, PhantomData};
use std::sync::ledger::{Blank, Share as Part};
use step_journal::Journal;

/// The journal of a box that has no entries and makers. Contracts see which table it is.
#[derive(Drop)]
pub struct FreshBox {
    journal: Journal<BoxEntry>,
}

impl Model for FreshBox {
    ghost use Rattle.std.specs.Prelude.{◌≡◌, []};
    ghost use Rattle.atomic_table.specs.Seated.{TableId};

    ghost Value = { TableId };

    ghost view = { λ f. f.journal.name };

    ghost invariant = { λ f. (f.journal.log ≡ []) × (f.journal.makers ≡ 0) };
}

/// The scheduler's journal without entries and makers. Contracts see which table it is.
#[derive(Drop)]
pub struct FreshSched {
    journal: Journal<SchedEntry>,
}

impl Model for FreshSched {
    ghost use Rattle.std.specs.Prelude.{◌≡◌, []};
    ghost use Rattle.atomic_table.specs.Seated.{TableId};

    ghost Value = { TableId };

    ghost view = { λ f. f.journal.name };

    ghost invariant = { λ f. (f.journal.log ≡ []) × (f.journal.makers ≡ 0) };
}

/// The tables and the ledger of an engine, before it has a name.
#[derive(Drop)]
pub struct EngineBlank {
    pub(crate) boxes: Vec<FreshBox>,
    pub(crate) sched: FreshSched,
    pub(crate) quit: QuitWord,
    pub(crate) first: QuitFirst,
    pub(crate) ledger: Blank,
}

impl Model for EngineBlank {
    ghost use Rattle.std.specs.Prelude.{◌≡◌, [], None};
    ghost use Rattle.pass_seats.specs.Opening.{BlankState};

    ghost Value = { BlankState };

    ghost view = { λ b. record {
      boxes = b.boxes.items;
      sched = b.sched;
      quit = b.quit;
      ledger = b.ledger.name;
      parts = b.ledger.parts;
    } };

    ghost invariant = { λ b. b.first ≡ record { given = 0; held = []; seen = None; name = b.quit } };
}

impl FreshBox {
    /// The journal of a box.
    pub fn open(alloc: Global) -> Result<FreshBox, Memory> {
        Ok(FreshBox {
            journal: Journal::open(alloc)?,
        })
    }

    /// The cell of a box over this journal.
    pub fn cell<N: EngineNames>(self, number: u32, vars: Vars) -> BoxCell<N>
        requires { vars.values ≡ N.first number }
        ensures { result ≡ fresh_cell self number vars.values 0 }
    {
        let FreshBox { journal } = self;
        BoxCell::with(number, vars, journal)
    }
}

impl FreshSched {
    /// The scheduler's cell over this journal.
    pub fn cell(self, core: SchedCore) -> SchedCell
        requires { core.machine ≡ beginning core.setting }
        ensures { result ≡ fresh_sched self core.setting 0 }
    {
        let FreshSched { journal } = self;
        SchedCell::with(core, journal)
    }
}

impl EngineBlank {
    /// The tables of an engine with so many boxes and seats.
    pub fn new(alloc: Global, boxes: u32, seats: u32) -> Result<EngineBlank, Memory>
        ensures { IfOk result (λ b. (length b.boxes ≡ boxes) × (b.parts ≡ seats)) }
    {
        let mut fresh = Vec::new(alloc);
        for _number in 0..boxes {
            fresh.push(FreshBox::open(alloc)?)?;
        }
        let (quit, first) = QuitWord::open(alloc)?;
        let sched = FreshSched {
            journal: Journal::open(alloc)?,
        };
        Ok(EngineBlank {
            boxes: fresh,
            sched,
            quit,
            first,
            ledger: Blank::new(seats as u64),
        })
    }
}

/// The places of one seat, while an engine is made. Contracts see the number of the seat and how many places it
/// has.
#[derive(Drop)]
pub struct SeatPlaces<N: EngineNames> {
    number: u32,
    places: Vec<Place>,
    of: PhantomData<N>,
}

impl<N: EngineNames> Model for SeatPlaces<N> {
    ghost use Rattle.std.specs.Prelude.{length};
    ghost use Rattle.pass_seats.specs.Opening.{PlacesState, ArePlaces};

    ghost Value = { PlacesState };

    ghost view = { λ s. record { number = s.number; many = length s.places.items } };

    ghost invariant = { λ s. ArePlaces N.names s.number s.places.items };
}

impl<N: EngineNames> SeatPlaces<N> {
    /// No places yet.
    pub fn new(alloc: Global, number: u32) -> SeatPlaces<N>
        ensures { result ≡ record { number = number; many = 0 } }
    {
        SeatPlaces {
            number,
            places: Vec::new(alloc),
            of: PhantomData,
        }
    }

    /// Takes a place at the next box.
    pub fn join(&mut self, cell: &mut BoxCell<N>) -> Result<(), Memory>
        requires next { cell.old.number ≡ self.old.many }
        requires empty { cell.old.journal.log ≡ [] }
        requires maker { cell.old.journal.makers ≡ self.old.number }
        requires name { cell.old.journal.name ≡ table_at N.names cell.old.number }
        ensures places { OnOk result (self.new ≡ record self.old { many = self.old.many + 1 }) }
        ensures cell { OnOk result (cell.new ≡ record cell.old {
          journal = record cell.old.journal { makers = self.old.number + 1 };
        }) }
    {
        let (note, share) = cell.seat()?;
        self.places.push(Place { note, share })?;
        Ok(())
    }

    /// The seat itself, with its places at all boxes.
    pub fn seat(
        self,
        alloc: Global,
        sched: &mut SchedCell,
        quit: &QuitWord,
        first: &mut QuitFirst,
        part: &mut Part<N>,
    ) -> Result<SeatCore<N>, Memory>
        requires all { self.many ≡ length N.names.boxes }
        requires number { self.number < N.names.seats }
        requires sched { (sched.old.journal.log ≡ []) × (sched.old.journal.makers ≡ self.number)
            × (sched.old.journal.name ≡ N.names.sched) }
        requires quit { (quit.now ≡ N.names.quit) × (first.old.name ≡ N.names.quit)
            × (first.old.given ≡ self.number) }
        requires part { (0 < part.old.parts) × (part.old.amount ≡ 0) }
        ensures seat { IfOk result (λ s. IsFresh self.number s) }
        ensures sched { OnOk result (sched.new ≡ record sched.old {
          journal = record sched.old.journal { makers = sched.old.journal.makers + 1 };
          seats = sched.old.seats + 1;
        }) }
        ensures first { OnOk result (first.new ≡ record first.old { given = first.old.given + 1 }) }
        ensures part { OnOk result ((part.new.parts + 1 ≡ part.old.parts) × (part.new.amount ≡ 0)) }
    {
        let SeatPlaces {
            number,
            places,
            of: _,
        } = self;
        let (note, share) = sched.seat()?;
        Ok(SeatCore {
            number,
            places,
            note,
            share,
            quit: quit.worker(first, number),
            part: part.split_off(1, 0),
            passes: Vec::new(alloc),
            torn: false,
        })
    }
}
