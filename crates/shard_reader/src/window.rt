//! Windows of an index: up to 1,024 of its rows, side by side, read at once.
ghost use Rattle.std.specs.Prelude.{◌≡◌, ◌≢◌, ◌+◌, ◌-◌, ◌*◌, ◌<◌, ◌≤◌, ◌^◌, length, take, drop, Ok, Err, OnOk, OnErr, IfErr, IfOk, IfSome, true, ℕ};
ghost use Rattle.shard_reader.specs.Reading.{Answers, EndsAt, EndsIn, EndsSeen, Holds, HoldsNumbers, IsAt, IsWindow, OnIndex, resumed, resumes, serves, sizes_of, starts_of, Tells};
ghost use Rattle.vol_base.specs.Calls.{ReadsFrom};
ghost use Rattle.vol_spec.specs.FoundChunks.{of_index};
ghost use Rattle.vol_spec.specs.Rows.{Columns, columns_of, find_in};

use crate::bytes::{LookupFault, read_exact};
use crate::scan::{Seen, scan};
use crate::span::IndexSpan;
use chunk_pool::Frame;
use minishard::{Row, Walk};
use vol_base::{Fault, Name, ShardFault, Source};

/// Reads `count` numbers of an index, from number `from` on, into the front of a buffer.
pub fn read_numbers<S: Source>(
    store: &mut S,
    name: &Name,
    index: &IndexSpan,
    from: u64,
    count: usize,
    out: &mut [u8],
) -> Result<(), LookupFault>
    requires some { 0 < count }
    requires within { from + count ≤ 3 * index.now.rows }
    requires fits { index.now.at + 24 * index.now.rows < 2 ^ 64 }
    requires room { 8 * count ≤ length out.old }
    ensures read { OnOk result (OnIndex (S.objects store.old) name.now index.now.at index.now.rows
        (HoldsNumbers from count out.new)) }
    ensures whole { IfErr result (λ fault. OnIndex (S.objects store.old) name.now index.now.at index.now.rows
        (λ _. fault ≡ LookupFault.NotRead)) }
    ensures asked { S.asked store.new ≤ S.asked store.old + 8 * count }
    ensures reads { ReadsFrom S.Source LookupFault.NotRead store.old store.new result }
    ensures still { IfErr result (λ fault. fault ≢ LookupFault.NotRead → S.faults store.new ≡ S.faults store.old) }
{
    match read_exact(store, name, index.at + 8 * from, &mut out[..8 * count]) {
        Err(_) => Err(LookupFault::NotRead),
        Ok(true) => Ok(()),
        Ok(false) => Err(LookupFault::Faulty(Fault::Shard(ShardFault::ShortMinishard))),
    }
}

// The same, into a buffer from a place on.
fn read_column<S: Source>(
    store: &mut S,
    name: &Name,
    index: &IndexSpan,
    from: u64,
    count: usize,
    columns: &mut [u8],
    place: usize,
) -> Result<(), LookupFault>
    requires some { 0 < count }
    requires within { from + count ≤ 3 * index.now.rows }
    requires fits { index.now.at + 24 * index.now.rows < 2 ^ 64 }
    requires room { place + 8 * count ≤ length columns.old }
    ensures read { OnOk result (OnIndex (S.objects store.old) name.now index.now.at index.now.rows
        (HoldsNumbers from count (drop place columns.new))) }
    ensures front { take place columns.new ≡ take place columns.old }
    ensures whole { IfErr result (λ fault. OnIndex (S.objects store.old) name.now index.now.at index.now.rows
        (λ _. fault ≡ LookupFault.NotRead)) }
    ensures asked { S.asked store.new ≤ S.asked store.old + 8 * count }
    ensures reads { ReadsFrom S.Source LookupFault.NotRead store.old store.new result }
    ensures still { IfErr result (λ fault. fault ≢ LookupFault.NotRead → S.faults store.new ≡ S.faults store.old) }
{
    match read_numbers(store, name, index, from, count, &mut columns[place..]) {
        Ok(()) => Ok(()),
        Err(fault) => Err(fault),
    }
}

// Reads `count` rows of an index, from row `first` on, into the fronts of three columns of a width.
fn read_columns<S: Source>(
    store: &mut S,
    name: &Name,
    index: &IndexSpan,
    first: u64,
    count: usize,
    columns: &mut [u8],
    width: usize,
) -> Result<(), LookupFault>
    requires some { 0 < count }
    requires within { first + count ≤ index.now.rows }
    requires fits { index.now.at + 24 * index.now.rows < 2 ^ 64 }
    requires width { 8 * count ≤ width }
    requires room { 3 * width ≤ length columns.old }
    ensures read { OnOk result (OnIndex (S.objects store.old) name.now index.now.at index.now.rows (λ bytes.
        Holds (columns_of bytes) first count columns.new (drop width columns.new)
        (drop (2 * width) columns.new))) }
    ensures whole { IfErr result (λ fault. OnIndex (S.objects store.old) name.now index.now.at index.now.rows
        (λ _. fault ≡ LookupFault.NotRead)) }
    ensures asked { S.asked store.new ≤ S.asked store.old + 24 * count }
    ensures reads { ReadsFrom S.Source LookupFault.NotRead store.old store.new result }
    ensures still { IfErr result (λ fault. fault ≢ LookupFault.NotRead → S.faults store.new ≡ S.faults store.old) }
{
    match read_column(store, name, index, first, count, columns, 0) {
        Ok(()) => {}
        Err(fault) => return Err(fault),
    }
    let starts = index.rows + first;
    match read_column(store, name, index, starts, count, columns, width) {
        Ok(()) => {}
        Err(fault) => return Err(fault),
    }
    let sizes = 2 * index.rows + first;
    match read_column(store, name, index, sizes, count, columns, 2 * width) {
        Ok(()) => Ok(()),
        Err(fault) => Err(fault),
    }
}

// Reads `count` rows of an index, from row `first` on, into the columns of a window.
#[tactic(auto, unfolding(crate::specs::Reading::starts_of, crate::specs::Reading::sizes_of))]
fn read_rows<S: Source>(
    store: &mut S,
    name: &Name,
    index: &IndexSpan,
    first: u64,
    count: usize,
    columns: &mut [u8],
) -> Result<(), LookupFault>
    requires some { 0 < count }
    requires few { count ≤ 1024 }
    requires within { first + count ≤ index.now.rows }
    requires fits { index.now.at + 24 * index.now.rows < 2 ^ 64 }
    requires room { length columns.old ≡ 24576 }
    ensures read { OnOk result (OnIndex (S.objects store.old) name.now index.now.at index.now.rows (λ bytes.
        Holds (columns_of bytes) first count columns.new (starts_of columns.new) (sizes_of columns.new))) }
    ensures whole { IfErr result (λ fault. OnIndex (S.objects store.old) name.now index.now.at index.now.rows
        (λ _. fault ≡ LookupFault.NotRead)) }
    ensures asked { S.asked store.new ≤ S.asked store.old + 24 * count }
    ensures reads { ReadsFrom S.Source LookupFault.NotRead store.old store.new result }
    ensures still { IfErr result (λ fault. fault ≢ LookupFault.NotRead → S.faults store.new ≡ S.faults store.old) }
{
    read_columns(store, name, index, first, count, columns, 8192)
}

// The bytes from a place on.
fn behind(columns: &[u8], place: usize) -> &[u8]
    requires { place ≤ length columns.now }
    ensures value { result.now ≡ drop place columns.now }
    ensures len { length result.now ≡ length columns.now - place }
{
    &columns[place..]
}

// The columns of a window behind the first.
#[tactic(auto, unfolding(crate::specs::Reading::starts_of))]
fn starts_in(columns: &[u8]) -> &[u8]
    requires { length columns.now ≡ 24576 }
    ensures value { result.now ≡ starts_of columns.now }
    ensures len { length result.now ≡ 16384 }
{
    behind(columns, 8192)
}

#[tactic(auto, unfolding(crate::specs::Reading::sizes_of))]
fn sizes_in(columns: &[u8]) -> &[u8]
    requires { length columns.now ≡ 24576 }
    ensures value { result.now ≡ sizes_of columns.now }
    ensures len { length result.now ≡ 8192 }
{
    behind(columns, 16384)
}

/// The rows of an index that were read last: the walk before the first of them, and three columns that
/// hold the numbers of `count` rows.
#[derive(Drop)]
pub(crate) struct Window {
    before: Walk,
    count: usize,
    columns: Frame,
    ghost columns_room: { length columns.bytes ≡ 24576 },
    ghost columns_used: { columns.used ≡ 24576 },
    ghost rows_ok: { before.rows + count ≤ 2 ^ 22 },
    ghost count_ok: { count ≤ 1024 },
}

// All bytes of a frame that is in use as a whole.
fn all_of(frame: &Frame) -> &[u8]
    requires { frame.now.used ≡ length frame.now.bytes }
    ensures { result.now ≡ frame.now.bytes }
{
    frame.used()
}

// The most rows of an index that a window has.
const WINDOW_ROWS: u64 = 1024;

/// The bytes of a window: three columns of 1,024 numbers of eight bytes each.
pub const WINDOW_LEN: u64 = 24 * WINDOW_ROWS;

impl Window {
    /// Forgets the rows.
    pub(crate) fn clear(&mut self)
        ensures before { self.new.before ≡ record { rows = 0; id = 0; end = 0 } }
        ensures count { self.new.count ≡ 0 }
    {
        self.count = 0;
        self.before = Walk::new();
    }

    // Reads the rows behind a walk.
    fn fill<S: Source>(
        &mut self,
        store: &mut S,
        name: &Name,
        index: &IndexSpan,
        walk: &Walk,
    ) -> Result<(), LookupFault>
        requires more { walk.now.rows < index.now.rows }
        requires few { index.now.rows ≤ 2 ^ 22 }
        requires fits { index.now.at + 24 * index.now.rows < 2 ^ 64 }
        ensures before { OnOk result (self.new.before ≡ walk.now) }
        ensures some { OnOk result (0 < self.new.count) }
        ensures within { OnOk result (walk.now.rows + self.new.count ≤ index.now.rows) }
        ensures none { OnErr result ((self.new.before ≡ record { rows = 0; id = 0; end = 0 }) ×
            (self.new.count ≡ 0)) }
        ensures read { OnOk result (OnIndex (S.objects store.old) name.now index.now.at index.now.rows
            (λ bytes. Holds (columns_of bytes) walk.now.rows self.new.count self.new.columns.bytes
            (starts_of self.new.columns.bytes) (sizes_of self.new.columns.bytes))) }
        ensures whole { IfErr result (λ fault. OnIndex
            (S.objects store.old) name.now index.now.at index.now.rows (λ _. fault ≡ LookupFault.NotRead)) }
        ensures asked { OnOk result (S.asked store.new ≤ S.asked store.old + 24 * self.new.count) }
        ensures asked_err { S.asked store.new ≤ S.asked store.old + 24 * (index.now.rows - walk.now.rows) }
        ensures reads { ReadsFrom S.Source LookupFault.NotRead store.old store.new result }
        ensures still { IfErr result (λ fault. fault ≢ LookupFault.NotRead → S.faults store.new ≡ S.faults store.old) }
    {
        self.clear();
        let first = walk.rows();
        let count = (index.rows - first).min(WINDOW_ROWS) as usize;
        match read_rows(store, name, index, first, count, self.columns.room()) {
            Ok(()) => {}
            Err(fault) => return Err(fault),
        }
        self.before = walk.duplicate();
        self.count = count;
        Ok(())
    }

    // Goes over the rows on behalf of a look-up.
    fn look(&self, walk: &mut Walk, id: u64) -> Result<Seen, LookupFault>
        requires { walk.old ≡ self.now.before }
        ensures rows { result ≡ Ok Seen.Nothing → walk.new.rows ≡ walk.old.rows + self.now.count }
        ensures seen { (c : Columns) → IsAt c walk.old id →
            Holds c walk.old.rows self.now.count self.now.columns.bytes (starts_of self.now.columns.bytes)
            (sizes_of self.now.columns.bytes) → walk.old.rows + self.now.count ≤ length c.ids →
            Tells c id result walk.new }
        ensures ends { (c : Columns) → IsAt c walk.old id →
            Holds c walk.old.rows self.now.count self.now.columns.bytes (starts_of self.now.columns.bytes)
            (sizes_of self.now.columns.bytes) → walk.old.rows + self.now.count ≤ length c.ids →
            EndsSeen c id result walk.old.rows self.now.count }
        ensures read { result ≢ Err LookupFault.NotRead }
    {
        let columns = all_of(&self.columns);
        match scan(
            walk,
            self.count,
            columns,
            starts_in(columns),
            sizes_in(columns),
            id,
        ) {
            Ok(seen) => Ok(seen),
            Err(fault) => Err(LookupFault::Faulty(Fault::Index(fault))),
        }
    }

    // Whether a look-up may go on behind the rows before the window.
    fn goes_on(&self, id: u64) -> bool
        ensures { result ≡ resumes self.now.before id }
    {
        self.before.rows() == 0 || self.before.id() < id
    }

    // The row with an id, where the window's rows don't stand behind it.
    fn find_behind<S: Source>(
        &mut self,
        store: &mut S,
        name: &Name,
        index: &IndexSpan,
        id: u64,
    ) -> Result<Option<Row>, LookupFault>
        requires few { index.now.rows ≤ 2 ^ 22 }
        requires fits { index.now.at + 24 * index.now.rows < 2 ^ 64 }
        requires within { self.old.before.rows + self.old.count ≤ index.now.rows }
        requires window { OnIndex (S.objects store.old) name.now index.now.at index.now.rows
            (IsWindow self.old.before self.old.count self.old.columns.bytes) }
        requires behind { resumes self.old.before id ≡ true }
        ensures found { OnIndex (S.objects store.old) name.now index.now.at index.now.rows (λ bytes.
            Answers (of_index (find_in (columns_of bytes) id)) result) }
        ensures within { self.new.before.rows + self.new.count ≤ index.now.rows }
        // A look-up of a higher id goes on behind the window.
        ensures behind { OnIndex (S.objects store.old) name.now index.now.at index.now.rows (λ _.
            resumes self.new.before id ≡ true) }
        ensures window { OnIndex (S.objects store.old) name.now index.now.at index.now.rows
            (IsWindow self.new.before self.new.count self.new.columns.bytes) }
        ensures asked { S.asked store.new ≤ S.asked store.old
            + 24 * (index.now.rows - (self.old.before.rows + self.old.count)) }
        // The rows up to the end of the window are read once each, but for those that were there.
        ensures once { OnOk result (S.asked store.new
            + 24 * (self.old.before.rows + self.old.count) ≤ S.asked store.old
            + 24 * (self.new.before.rows + self.new.count)) }
        ensures ends { IfOk result (λ row. IfSome row (λ _.
            OnIndex (S.objects store.old) name.now index.now.at index.now.rows (λ bytes.
            EndsIn (columns_of bytes) id self.new.before.rows self.new.count))) }
        ensures again { OnIndex (S.objects store.old) name.now index.now.at index.now.rows (λ bytes. (r : ℕ) →
            EndsAt (columns_of bytes) id r → r < self.old.before.rows + self.old.count →
            S.asked store.new ≡ S.asked store.old) }
        ensures reads { ReadsFrom S.Source LookupFault.NotRead store.old store.new result }
        ensures still { IfErr result (λ fault. fault ≢ LookupFault.NotRead → S.faults store.new ≡ S.faults store.old) }
    {
        let mut walk = self.before.duplicate();
        match self.look(&mut walk, id) {
            Err(fault) => return Err(fault),
            Ok(Seen::Answer(row)) => return Ok(row),
            Ok(Seen::Nothing) => {}
        }
        while walk.rows() < index.rows {
            match self.fill(store, name, index, &walk) {
                Err(fault) => return Err(fault),
                Ok(()) => {}
            }
            match self.look(&mut walk, id) {
                Err(fault) => return Err(fault),
                Ok(Seen::Answer(row)) => return Ok(row),
                Ok(Seen::Nothing) => {}
            }
        }
        Ok(None)
    }

    /// A window with no rows, over a frame.
    pub(crate) fn new(mut columns: Frame) -> Window
        requires { length columns.bytes ≡ 24576 }
        ensures before { result.before ≡ record { rows = 0; id = 0; end = 0 } }
        ensures count { result.count ≡ 0 }
    {
        columns.set_used(24576);
        Window {
            before: Walk::new(),
            count: 0,
            columns,
        }
    }

    // Whether the window serves a look-up in an index of so many rows.
    fn serves(&self, rows: u64, id: u64) -> bool
        ensures { result ≡ serves self.now.before self.now.count rows id }
    {
        self.before.rows() + self.count as u64 <= rows && self.goes_on(id)
    }

    /// The row with an id in an index whose rows the window may hold. Rows are judged from the first up
    /// to and with the first one whose id isn't below the wanted one. No row that the window holds is
    /// read again where it serves, and none is read twice.
    pub(crate) fn find<S: Source>(
        &mut self,
        store: &mut S,
        name: &Name,
        index: &IndexSpan,
        id: u64,
    ) -> Result<Option<Row>, LookupFault>
        requires few { index.now.rows ≤ 2 ^ 22 }
        requires fits { index.now.at + 24 * index.now.rows < 2 ^ 64 }
        requires window { OnIndex (S.objects store.old) name.now index.now.at index.now.rows
            (IsWindow self.old.before self.old.count self.old.columns.bytes) }
        ensures found { OnIndex (S.objects store.old) name.now index.now.at index.now.rows (λ bytes.
            Answers (of_index (find_in (columns_of bytes) id)) result) }
        ensures within { self.new.before.rows + self.new.count ≤ index.now.rows }
        // A look-up of a higher id goes on behind the window.
        ensures behind { OnIndex (S.objects store.old) name.now index.now.at index.now.rows (λ _.
            resumes self.new.before id ≡ true) }
        ensures window { OnIndex (S.objects store.old) name.now index.now.at index.now.rows
            (IsWindow self.new.before self.new.count self.new.columns.bytes) }
        ensures asked { S.asked store.new ≤ S.asked store.old
            + 24 * (index.now.rows - resumed self.old.before self.old.count index.now.rows id) }
        ensures once { OnOk result (S.asked store.new
            + 24 * resumed self.old.before self.old.count index.now.rows id ≤ S.asked store.old
            + 24 * (self.new.before.rows + self.new.count)) }
        ensures ends { IfOk result (λ row. IfSome row (λ _.
            OnIndex (S.objects store.old) name.now index.now.at index.now.rows (λ bytes.
            EndsIn (columns_of bytes) id self.new.before.rows self.new.count))) }
        ensures again { OnIndex (S.objects store.old) name.now index.now.at index.now.rows (λ bytes. (r : ℕ) →
            EndsAt (columns_of bytes) id r → self.old.before.rows ≤ r →
            r < self.old.before.rows + self.old.count → S.asked store.new ≡ S.asked store.old) }
        ensures reads { ReadsFrom S.Source LookupFault.NotRead store.old store.new result }
        ensures still { IfErr result (λ fault. fault ≢ LookupFault.NotRead → S.faults store.new ≡ S.faults store.old) }
    {
        if self.serves(index.rows, id) {
            return self.find_behind(store, name, index, id);
        }
        self.clear();
        self.find_behind(store, name, index, id)
    }
}
