//! Objects put one after the other, and what a kill leaves of them.
ghost use Rattle.std.specs.Prelude.{◌≡◌, ◌≤◌, ℕ, length, take, map as map_list, Some, None, OnOk, OnErr, IsSome};
ghost use Rattle.std.specs.Option.{option_map};
ghost use Rattle.vol_base.specs.Outside.{Passes, Turns};
ghost use Rattle.folder_store.specs.Puts.{items_of, put_in, puts, IsFront, Rises};
ghost use Rattle.folder_store.specs.Disks.{objects_of, objects_at};
ghost use Rattle.folder_store.specs.Power.{Survives};

use crate::directory::DirStore;
use crate::folder::Folder;
use std::alloc::Global;
use vol_base::{Name, Store, StoreRefusal};

/// An object that is to be put.
#[derive(Drop)]
pub struct Item {
    pub name: Name,
    pub bytes: Vec<u8>,
}

/// Puts an object. A kill at any moment leaves it as it was or as it is to be.
pub fn put_one<S: Store>(store: &mut S, name: &Name, bytes: &[u8]) -> Result<(), StoreRefusal>
    ensures put { OnOk result (S.objects store.new ≡ option_map (put_in (name.now, bytes.now)) (S.objects store.old)) }
    ensures refused { OnErr result (S.objects store.new ≡ S.objects store.old) }
    ensures history { Turns (S.objects store.old) (S.objects store.new) (S.history store.old) (S.history store.new) }
{
    store.begin(name)?;
    store.append(bytes)?;
    store.finish()
}

/// Puts objects in order. A kill at any moment leaves those in front of some place of the list put, each whole, and all
/// else as it was; the later the kill, the longer that front.
pub fn put_all<S: Store>(store: &mut S, items: &[Item]) -> Result<(), StoreRefusal>
    ensures put { OnOk result (S.objects store.new ≡ puts (S.objects store.old) (items_of items.now)) }
    ensures history { (k : ℕ) × (S.objects store.new ≡ puts (S.objects store.old) (take k (items_of items.now))) ×
        Rises (S.objects store.old) (take k (items_of items.now)) (S.history store.old) (S.history store.new) }
    ensures killed { Passes (IsFront (S.objects store.old) (items_of items.now)) (S.history store.old) (S.history store.new) }
{
    for item in items {
        put_one(store, &item.name, &item.bytes)?;
    }
    Ok(())
}

/// Puts objects into a folder in order. **Whenever this call is killed, the objects that stand are those that stood, with
/// the ones in front of some place of the list put, each of them whole.**
pub fn put_into<F: Folder + Drop>(
    alloc: Global,
    folder: F,
    items: &[Item],
) -> (Result<(), StoreRefusal>, F)
    ensures put { OnOk result.0 (option_map objects_of (F.disk result.1) ≡ puts (option_map objects_of (F.disk folder)) (items_of items.now)) }
    ensures killed { Passes (IsFront (option_map objects_of (F.disk folder)) (items_of items.now))
        (map_list objects_at (F.moments folder)) (map_list objects_at (F.moments result.1)) }
    ensures power { Survives (F.moments result.1) }
{
    let mut store = DirStore::new(folder, alloc);
    let result = put_all(&mut store, items);
    (result, store.into_folder())
}
