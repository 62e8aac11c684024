// The store keeps paragraphs in records and bytes that the caller hands over.
ghost use Rattle.std.specs.Prelude.{◌≡◌, ◌≤◌, true, false, take, vec_len};
ghost use Rattle.fault.specs.declared.layer.Layer.TheVariants.{Store as store_layer};
ghost use Rattle.orders.specs.declared.phase.Phase.TheVariants.{Running as Open};
ghost use Rattle.orders.specs.Phases.{ShutIn};
ghost use Rattle.store.specs.Events.{tiles_to, in_use};

use crate::record::Record;
use fault::own_fault::OwnFault;
use orders::phase::Phase;

pub mod asking;
pub mod keeping;
pub mod taking;

#[derive(Drop)]
pub struct Store {
    // of each paragraph, in order: the ended ones, and then the open one; filled by count, as is the text, since the memory is
    // the caller's, and what is not in use stays as the caller left it
    records: Vec<Record>,
    // the paragraphs' text, one behind the other
    bytes: Vec<u8>,
    // how many paragraphs are ended
    count: u32,
    // whether one is open behind them; the count stands whether or not one is, so this is no missing value
    inside: bool,
    // how many bytes are used
    used: usize,
    phase: Phase<OwnFault>,
    ghost few: { in_use count inside ≤ vec_len records },
    ghost numbered: { in_use count inside ≤ 4294967295 },
    ghost tiles: { tiles_to (take (in_use count inside) records.items) used ≡ true },
    ghost room: { used ≤ vec_len bytes },
    // what shut it is a fault of the store
    ghost named: { ShutIn store_layer phase },
}

// What a store hands back.
#[derive(Clone, Drop)]
pub struct StoreMemory {
    pub records: Vec<Record>,
    pub bytes: Vec<u8>,
    // how many paragraphs are ended, a record of each in front
    pub ended: u32,
}

impl Store {
    pub fn new(records: Vec<Record>, bytes: Vec<u8>) -> Store
        ensures records { result.records ≡ records }
        ensures bytes { result.bytes ≡ bytes }
        ensures count { result.count ≡ 0 }
        ensures inside { result.inside ≡ false }
        ensures used { result.used ≡ 0 }
        ensures phase { result.phase ≡ Open }
    {
        Store {
            records,
            bytes,
            count: 0,
            inside: false,
            used: 0,
            phase: Phase::Running,
        }
    }

    // The records and the bytes, back, and how many paragraphs are ended.
    pub fn into_memory(self) -> StoreMemory
        ensures records { result.records ≡ self.records }
        ensures bytes { result.bytes ≡ self.bytes }
        ensures ended { result.ended ≡ self.count }
        ensures few { result.ended ≤ vec_len result.records }
    {
        StoreMemory {
            records: self.records,
            bytes: self.bytes,
            ended: self.count,
        }
    }
}
