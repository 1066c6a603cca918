// The directory: the names in use, each with its mark, its kinds and how many rows it has.
ghost use Rattle.std.specs.Prelude.{◌≡◌, ◌+◌, ◌<◌, true, false, get_or, replicate, MatchResult, slice_index_or, slice_set, Decides};
ghost use Rattle.relation.specs.Few.{items};
ghost use Rattle.relation.specs.Values.{word};
ghost use Rattle.words.specs.Name.{is_name};
ghost use Rattle.relation.specs.Bounds.{most_entries, most_stored};
ghost use Rattle.relation.specs.declared.refusals.Reason.TheVariants as no;
ghost use Rattle.register.specs.Layout.{free, bearer, grown, issued_entry, Begun, Vacant, EachVacant};

use relation::bounds::ENTRIES;
use relation::columns::Kinds;
use relation::kinds::Kind;
use relation::refusals::Reason;
use relation::values::word_value;
use words::names::is_name;

// A name, by the number that it is held as like any word.
#[derive(Clone, Copy, PartialEq, Eq)]
pub struct Name {
    pub(crate) code: u64,
}

// What an entry is in use for.
#[derive(Clone, Copy, PartialEq, Eq)]
pub enum Mark {
    // No `Option<Entry>`: `grow`, `publish` and the callers of `at` would have arms for None that no call reaches, and a sum would have to pass None over.
    Free,
    // Rows may be put; the holder of the slip publishes or abandons it.
    Draft,
    // It has the canonical list of its rows.
    Published,
}

#[derive(Clone, Copy)]
pub struct Entry {
    pub(crate) name: Name,
    pub(crate) mark: Mark,
    pub(crate) kinds: Kinds,
    // How many rows it has. They lie behind those of the entries before it.
    pub(crate) count: usize,
}

// A table of entries that lies in place, since nothing is allocated. An entry is changed inside a method alone, and never handed out to be changed.
#[derive(Clone, Copy)]
pub struct Directory {
    pub(crate) entries: [Entry; ENTRIES],
}

// The name that the bytes are.
impl TryFrom<&[u8]> for Name {
    type Error = Reason;

    ghost try_from_gives = { λ bytes result. MatchResult result (λ n. (is_name bytes.now ≡ true) × (n.code ≡ word bytes.now)) (λ e. (is_name bytes.now ≡ false) × (e ≡ no.Name)) };

    fn try_from(bytes: &[u8]) -> Result<Name, Reason> {
        if !is_name(bytes) {
            return Err(Reason::Name);
        }
        let value = word_value(bytes).ok_or(Reason::Name)?;
        Ok(Name { code: value as u64 })
    }
}

impl Entry {
    // An entry that is not in use.
    fn free() -> Entry
        ensures { Vacant result }
    {
        Entry {
            name: Name { code: 0 },
            mark: Mark::Free,
            kinds: Kinds::new(Kind::Number),
            count: 0,
        }
    }

    // The entry for a new draft.
    pub fn draft(name: Name, kinds: Kinds) -> Entry
        ensures { Begun result name.code (items kinds) }
    {
        Entry {
            name,
            mark: Mark::Draft,
            kinds,
            count: 0,
        }
    }

    // Whether the entry has the mark.
    pub fn is_marked(&self, mark: Mark) -> bool
        ensures { Decides result (self.now.mark ≡ mark) }
    {
        self.mark == mark
    }

    // Whether the entry is in use under the name.
    pub fn answers_to(&self, name: Name) -> bool
        ensures { result ≡ bearer self.now name.code }
    {
        self.mark != Mark::Free && self.name == name
    }
}

// A place is a plain number: a type for it could keep that it is below ENTRIES, but its mark and its count, facts of the directory too, would still be asked.
impl Directory {
    // A directory with no entry in use.
    pub fn empty() -> Directory
        ensures { EachVacant result.entries }
    {
        Directory {
            entries: [Entry::free(); ENTRIES],
        }
    }

    // The entry at a place.
    pub fn at(&self, i: usize) -> Entry
        requires { i < most_entries }
        ensures { result ≡ get_or self.now.entries i free }
    {
        self.entries[i]
    }

    // Puts an entry at a place.
    pub fn begin(&mut self, i: usize, entry: Entry)
        requires { i < most_entries }
        ensures { self.new.entries ≡ slice_set self.old.entries i entry }
    {
        self.entries[i] = entry;
    }

    // Gives an entry up.
    pub fn clear(&mut self, i: usize)
        requires { i < most_entries }
        ensures { (e : Entry) × Vacant e × (self.new.entries ≡ slice_set self.old.entries i e) }
    {
        self.entries[i] = Entry::free();
    }

    // Marks an entry as published, with so many rows.
    pub fn publish(&mut self, i: usize, count: usize)
        requires { i < most_entries }
        ensures { self.new.entries ≡ slice_set self.old.entries i (issued_entry (slice_index_or self.old.entries i free) count) }
    {
        let e = &mut self.entries[i];
        e.mark = Mark::Published;
        e.count = count;
    }

    // Counts one more row to an entry, and answers how many it has then.
    pub fn grow(&mut self, i: usize) -> usize
        requires within { i < most_entries }
        requires fits { (get_or self.old.entries i free).count < most_stored }
        ensures after { self.new.entries ≡ slice_set self.old.entries i (grown (slice_index_or self.old.entries i free)) }
        ensures count { result ≡ (get_or self.old.entries i free).count + 1 }
    {
        let e = &mut self.entries[i];
        e.count += 1;
        e.count
    }
}
