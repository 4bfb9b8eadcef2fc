//! The scheduled races of a submission's loads.

ghost use Rattle.std.specs.Prelude.{◌≡◌, ◌<◌, ◌≤◌, ◌+◌, ◌-◌, ◌^◌, [], All, IfSome, IfNone, length};
ghost use Rattle.mrpc_base.specs.Heap.{races_with};
ghost use Rattle.mrpc_base.specs.Parts.{IsFirstRace, IsFirstDue};

use crate::Room;
use std::alloc::Global;
use std::collections::BTreeMap;
use std::marker::Model;

// The place and the value of a store.
type RaceStore = (u64, u64);

#[derive(Drop)]
pub(crate) struct Races {
    // Keyed by the number of the load, then by the number of the listing.
    waiting: BTreeMap<(u64, u64), RaceStore>,
    // The number of the next listing.
    listed: u64,
}

impl Model for Races {
    ghost use Rattle.std.specs.Prelude.{map};
    ghost use Rattle.mrpc_base.specs.Parts.{ScheduledRaces, race_of, AreListedBelow};

    ghost Value = { ScheduledRaces };

    ghost view = { λ r. record { races = map race_of r.waiting.entries; listed = r.listed } };

    ghost invariant = { λ r. AreListedBelow r.listed r.waiting.entries };
}

impl Races {
    // No race is scheduled, and none was listed.
    pub(crate) fn new(alloc: Global) -> Self
        ensures races { result.races ≡ [] }
        ensures listed { result.listed ≡ 0 }
    {
        Races {
            waiting: BTreeMap::new(alloc),
            listed: 0,
        }
    }

    pub(crate) fn len(&self) -> u64
        ensures len { result ≡ length self.now.races }
        ensures small { result < 2 ^ 63 }
    {
        self.waiting.len() as u64
    }

    // Lists a race after those of its load and of earlier loads.
    pub(crate) fn list(&mut self, load: u64, place: u64, value: u64) -> Room
        requires { self.old.listed < 2 ^ 64 - 1 }
        ensures made { result ≡ Room.Made
            → self.new.races ≡ races_with self.old.races (record { load = load; place = place; value = value }) }
        ensures counted { result ≡ Room.Made → self.new.listed ≡ self.old.listed + 1 }
        ensures memory { result ≡ Room.Memory → self.new ≡ self.old }
    {
        match self.waiting.insert((load, self.listed), (place, value)) {
            Ok(_) => {
                self.listed += 1;
                Room::Made
            }
            Err(_) => Room::Memory,
        }
    }

    // Removes the first scheduled race, if there is one, and returns its store.
    pub(crate) fn take_first(&mut self) -> Option<RaceStore>
        ensures first { IfSome result (IsFirstRace self.old.races self.new.races) }
        ensures none { IfNone result (self.old.races ≡ []) }
        ensures unchanged { IfNone result (self.new.races ≡ []) }
        ensures listed { self.new.listed ≡ self.old.listed }
    {
        let (_, store) = self.waiting.pop_first()?;
        Some(store)
    }

    // Removes the first scheduled race if it is of a load up to `number`, and returns its store.
    pub(crate) fn take_due(&mut self, number: u64) -> Option<RaceStore>
        ensures first { IfSome result (IsFirstDue number self.old.races self.new.races) }
        ensures none { IfNone result (All (λ race. number < race.load) self.old.races) }
        ensures unchanged { IfNone result (self.new.races ≡ self.old.races) }
        ensures listed { self.new.listed ≡ self.old.listed }
    {
        let (&(load, _), _) = self.waiting.first_key_value()?;
        if load > number {
            return None;
        }
        self.take_first()
    }
}
