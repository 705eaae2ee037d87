//! Tables of one size, kept one after another.
ghost use Rattle.std.specs.Prelude.{◌≡◌, ◌<◌, ◌≤◌, [], ℕ, All, IfOk, length, map};
ghost use Rattle.ds_base.specs.Values.{Row};
ghost use Rattle.ds_cover.specs.Small.{IsFolded, IsShelved, IsSmallWithin, IsWordShelved, Small};
ghost use Rattle.ds_cover.specs.Small.{after_smalls, after_worded, no_shelf, paired, part_of};
ghost use Rattle.ds_cover.specs.Small.{small_value, values_of_word, worded_by, worded_value};

use crate::Quick;
use ds_base::{Row3, Value};
use std::alloc::{AllocError, Global};
use std::marker::Model;

/// A table of a fixed number of inputs, by its values where they are known.
pub trait SmallTable: Copy {
    // how many inputs
    ghost width: { ℕ };

    // the table
    ghost small: { Self → Small };

    // The table of this word.
    fn of(quick: &Quick) -> Self
        ensures { IsFolded width quick.now (small result) };

    // The net that it drives, as an index.
    fn output(&self) -> usize
        ensures { result ≡ (small self.now).output };

    // The value where the inputs are known.
    fn value(&self, nets: &[Value]) -> Value
        requires { All (λ net. net < length nets.now) (small self.now).nets }
        ensures { result ≡ small_value (small self.now) nets.now };
}

/// One of up to three inputs, with words beside it that have its value for all values of these.
pub trait WordedTable<W: Drop>: SmallTable {
    // the values in the words, by places
    ghost values: { W → Row };

    // The words of a table, out of a word of 27.
    fn words(word: u64) -> W
        ensures { values result ≡ values_of_word Self.width word };

    // The value for all values of the inputs.
    fn worded(&self, words: &W, nets: &[Value]) -> Value
        requires { All (λ net. net < length nets.now) (Self.small self.now).nets }
        ensures { result ≡ worded_value
            (record { small = Self.small self.now; values = values words.now }) nets.now };
}

/// Tables of one size, one after another.
pub struct Shelf<S: SmallTable> {
    tables: Vec<S>,
}

impl<S: SmallTable> Drop for Shelf<S> {
    fn drop(self) {
        let Shelf { tables: _ } = self;
    }
}

impl<S: SmallTable> Model for Shelf<S> {
    ghost use Rattle.std.specs.Prelude.{[], map};
    ghost use Rattle.ds_cover.specs.Small.{Shelved};

    ghost Value = { Shelved };

    ghost view = { λ s. record { smalls = map S.small s.tables.items; worded = [] } };
}

impl<S: SmallTable> Shelf<S> {
    // Without tables.
    pub(crate) fn new(alloc: Global) -> Self
        ensures { result ≡ no_shelf }
    {
        Shelf {
            tables: Vec::new(alloc),
        }
    }

    // Adds the table of a word, and says where it stands.
    pub(crate) fn add(&mut self, quick: &Quick) -> Result<usize, AllocError>
        ensures { IfOk result (IsShelved quick.now S.width self.old self.new) }
    {
        let first = self.tables.len();
        self.tables.push(S::of(quick))?;
        Ok(first)
    }

    // Sets what the tables from a place on drive, up to another, one after another.
    pub(crate) fn set(&self, first: usize, end: usize, nets: &mut Row3)
        requires low { first ≤ end }
        requires inside { end ≤ length self.now.smalls }
        requires within { All (λ t. IsSmallWithin t nets.old) (part_of first end self.now.smalls) }
        ensures { nets.new ≡ after_smalls (part_of first end self.now.smalls) nets.old }
    {
        set_tables(self.tables.as_slice(), first, end, nets);
    }
}

/// The same of tables that have words beside them.
pub struct WordedShelf<S: WordedTable<W>, W: Drop> {
    tables: Vec<S>,
    words: Vec<W>,
}

impl<S: WordedTable<W>, W: Drop> Drop for WordedShelf<S, W> {
    fn drop(self) {
        let WordedShelf {
            tables: _,
            words: _,
        } = self;
    }
}

impl<S: WordedTable<W>, W: Drop> Model for WordedShelf<S, W> {
    ghost use Rattle.std.specs.Prelude.{◌≡◌, length, map};
    ghost use Rattle.ds_cover.specs.Small.{Shelved, paired, worded_by};

    ghost Value = { Shelved };

    ghost view = { λ s. record {
      smalls = map S.small s.tables.items;
      worded = paired (worded_by S.small S.values) s.tables.items s.words.items;
    } };

    ghost invariant = { λ s. length s.words.items ≡ length s.tables.items };
}

impl<S: WordedTable<W>, W: Drop> WordedShelf<S, W> {
    // Without tables.
    pub(crate) fn new(alloc: Global) -> Self
        ensures { result ≡ no_shelf }
    {
        WordedShelf {
            tables: Vec::new(alloc),
            words: Vec::new(alloc),
        }
    }

    // Adds the table of a word, with its words out of one of 27, and says where it stands.
    pub(crate) fn add(&mut self, quick: &Quick, word: u64) -> Result<usize, AllocError>
        ensures { IfOk result (IsWordShelved quick.now S.width word self.old self.new) }
    {
        self.tables.reserve(1)?;
        self.words.reserve(1)?;
        let first = self.tables.len();
        self.tables.push_reserved(S::of(quick));
        self.words.push_reserved(S::words(word));
        Ok(first)
    }

    // Sets what the tables from a place on drive, up to another, by their known values.
    pub(crate) fn set(&self, first: usize, end: usize, nets: &mut Row3)
        requires low { first ≤ end }
        requires inside { end ≤ length self.now.smalls }
        requires within { All (λ t. IsSmallWithin t nets.old) (part_of first end self.now.smalls) }
        ensures { nets.new ≡ after_smalls (part_of first end self.now.smalls) nets.old }
    {
        set_tables(self.tables.as_slice(), first, end, nets);
    }

    // The same by their words.
    pub(crate) fn set_worded(&self, first: usize, end: usize, nets: &mut Row3)
        requires low { first ≤ end }
        requires inside { end ≤ length self.now.smalls }
        requires within { All (λ t. IsSmallWithin t nets.old) (part_of first end self.now.smalls) }
        ensures { nets.new ≡ after_worded (part_of first end self.now.worded) nets.old }
    {
        let words = self.words.as_slice();
        set_words(self.tables.as_slice(), words, first, end, nets);
    }
}

// Sets what the tables from a place on drive, up to another, one after another.
fn set_tables<S: SmallTable>(tables: &[S], first: usize, end: usize, nets: &mut Row3)
    requires low { first ≤ end }
    requires inside { end ≤ length tables.now }
    requires within { All (λ t. IsSmallWithin t nets.old) (part_of first end
        (map S.small tables.now)) }
    ensures { nets.new ≡ after_smalls (part_of first end (map S.small tables.now)) nets.old }
{
    put_tables(&tables[first..end], nets.values_mut());
}

// The same on the values that a row lends.
fn put_tables<S: SmallTable>(tables: &[S], nets: &mut [Value])
    requires { All (λ t. IsSmallWithin (S.small t) nets.old) tables.now }
    ensures { nets.new ≡ after_smalls (map S.small tables.now) nets.old }
{
    for table in tables {
        let value = table.value(nets);
        nets[table.output()] = value;
    }
}

// The same by their words.
fn set_words<S: WordedTable<W>, W: Drop>(
    tables: &[S],
    words: &[W],
    first: usize,
    end: usize,
    nets: &mut Row3,
)
    requires one_each { length words.now ≡ length tables.now }
    requires low { first ≤ end }
    requires inside { end ≤ length tables.now }
    requires within { All (λ t. IsSmallWithin t nets.old) (part_of first end
        (map S.small tables.now)) }
    ensures { nets.new ≡ after_worded
        (part_of first end (paired (worded_by S.small S.values) tables.now words.now)) nets.old }
{
    put_words(&tables[first..end], &words[first..end], nets.values_mut());
}

// The same on the values that a row lends.
fn put_words<S: WordedTable<W>, W: Drop>(tables: &[S], words: &[W], nets: &mut [Value])
    requires one_each { length words.now ≡ length tables.now }
    requires within { All (λ t. IsSmallWithin (S.small t) nets.old) tables.now }
    ensures { nets.new ≡ after_worded (paired (worded_by S.small S.values) tables.now words.now)
        nets.old }
{
    for i in 0..tables.len() {
        let value = tables[i].worded(&words[i], nets);
        nets[tables[i].output()] = value;
    }
}
