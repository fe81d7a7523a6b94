//! Whether two fields of one Struct have one name. A link is followed only to a record past floor, so that each way
//! along a chain ends.
ghost use Rattle.std.specs.Prelude.{◌≡◌, not, ℕ, ◌+◌, ◌*◌, ◌<◌, ◌≤◌, length};
ghost use Rattle.sheet.specs.Types.{Fields, count};
ghost use Rattle.sheet.specs.Read.{label_at};
ghost use Rattle.sheet.specs.Names.{names_differ};
ghost use Rattle.sheet.specs.Holds.{Holds};
ghost use Rattle.sheet.specs.Bounds.{Bounded};
ghost use Rattle.refusals.specs.RepeatedNames.{record_name, name_at, placed, First, HasEqual, Repeats, Compared, ListedRecords, Numbered, StructRepeats};

use crate::name_numbers::name_number;
use crate::records::Records;
use sheet::label::{label_at, same_name};
use sheet::limits::{MOST_RECORDS, RECORD_BYTES};
use sheet::record::head_at;
use sheet::{Head, kind};

// Whether two are equal was not found out.
#[derive(Clone, Copy)]
pub(crate) struct Unsure;

// Two equal ones among several, by their places; or none, where all differ.
pub(crate) type Pair = Result<Option<(usize, usize)>, Unsure>;

// The chain of records that a link leads to: each is past the one before it, and the first past floor.
#[derive(Clone, Copy)]
struct Chain<'a> {
    records: Records<'a>,
    floor: usize,
    link: usize,
}

impl Chain<'_> {
    // The first of the first k records that has the name of h, by its place.
    fn named(self, h: Head, k: usize) -> Option<usize>
        requires { Bounded h }
        ensures { First (λ (i : ℕ). record_name self.entry.records.sheet.now self.entry.records.n (placed self.entry.records.sheet.now self.entry.link i)) (label_at self.entry.records.sheet.now self.entry.records.n h.name h.name_len) k result }
    {
        let Records { sheet, n } = self.records;
        let mut at = self.link;
        for i in 0..k {
            let g = head_at(sheet, at);
            if same_name(sheet, n, g, sheet, n, h) {
                return Some(i);
            }
            at = g.next;
        }
        None
    }

    // Compares each name with those before it, unless there are more than most. Inlined, as most Structs have few
    // fields.
    #[inline(always)]
    fn compared(self, most: usize) -> Pair
        ensures { Compared self.entry.records.sheet.now self.entry.records.n self.entry.floor self.entry.link most result }
    {
        let Records { sheet, n } = self.records;
        let mut low = self.floor;
        let mut at = self.link;
        let mut k = 0;
        while low < at && at < n {
            if k == most {
                return Err(Unsure);
            }
            let h = head_at(sheet, at);
            if let Some(j) = self.named(h, k) {
                return Ok(Some((j, k)));
            }
            low = at;
            at = h.next;
            k += 1;
        }
        Ok(None)
    }

    // Lists the records and the numbers of their names, as many as there is room for, and says how many they are.
    fn list(self, recs: &mut [u16], numbers: &mut [u32]) -> usize
        requires { length recs.old ≤ length numbers.old }
        ensures { ListedRecords self.entry.records.sheet.now self.entry.records.n self.entry.floor self.entry.link recs.new result × Numbered self.entry.records.sheet.now self.entry.records.n recs.new result numbers.new }
    {
        let Records { sheet, n } = self.records;
        let mut low = self.floor;
        let mut at = self.link;
        let mut k = 0;
        while low < at && at < n && k < recs.len() {
            let h = head_at(sheet, at);
            recs[k] = at as u16;
            numbers[k] = name_number(label_at(sheet, n, h.name, h.name_len));
            low = at;
            at = h.next;
            k += 1;
        }
        k
    }

    // Whether two records have one name, by comparing all.
    fn repeats_plain(self) -> bool
        ensures { Repeats self.entry.records.sheet.now self.entry.records.n self.entry.floor self.entry.link result }
    {
        match self.compared(self.records.n) {
            Ok(found) => found.is_some(),
            Err(Unsure) => unreachable!(),
        }
    }

    // The same, where the chain is long.
    fn repeats_long(self) -> bool
        ensures { Repeats self.entry.records.sheet.now self.entry.records.n self.entry.floor self.entry.link result }
    {
        // Room for the most records, filled up to k; where it is full all are compared. Two arrays are 6 KiB to set
        // to 0, where one of structs would be 8.
        let mut recs = [0u16; MOST_RECORDS];
        let mut numbers = [0u32; MOST_RECORDS];
        let k = self.list(&mut recs, &mut numbers);
        if k == recs.len() {
            return self.repeats_plain();
        }
        self.records.equal_names(&mut recs[..k], &numbers[..k])
    }

    // The same. A short chain is compared at once.
    fn repeats(self) -> bool
        ensures { Repeats self.entry.records.sheet.now self.entry.records.n self.entry.floor self.entry.link result }
    {
        match self.compared(8) {
            Ok(found) => found.is_some(),
            Err(Unsure) => self.repeats_long(),
        }
    }
}

impl Records<'_> {
    // Whether two of several records have one name. The numbers of their names tell most apart.
    fn equal_names(self, recs: &mut [u16], numbers: &[u32]) -> bool
        requires { (length numbers.now ≡ length recs.old) × Numbered self.sheet.now self.n recs.old (length numbers.now) numbers.now }
        ensures { HasEqual (name_at self.entry.sheet.now self.entry.n recs.old) (length recs.old) result }
    {
        match self.by_number(recs, numbers) {
            Ok(found) => found.is_some(),
            Err(Unsure) => self.by_order(recs),
        }
    }

    // Whether record r is a Struct with two fields of one name.
    fn struct_repeats(self, r: usize) -> bool
        requires { r < self.n }
        ensures { StructRepeats self.entry.sheet.now self.entry.n r result }
    {
        if self.sheet[RECORD_BYTES * r] != kind::STRUCT {
            return false;
        }
        let parts = Chain {
            records: self,
            floor: r,
            link: head_at(self.sheet, r).first,
        };
        parts.repeats()
    }
}

/// Whether a Struct at any depth has two fields of one name, in a sheet of n records whose walk from record 1 meets
/// them all.
pub fn names_repeat(sheet: &[u8], n: usize) -> bool
    requires { (n < 65536) × (RECORD_BYTES * n ≤ length sheet.now) }
    ensures { (o : ℕ) (t : Fields) → Holds sheet.now n 1 o t → 1 + count t ≡ n → result ≡ not (names_differ t) }
{
    let records = Records { sheet, n };
    (1..n).any(|r| records.struct_repeats(r))
}
