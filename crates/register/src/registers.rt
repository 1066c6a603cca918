// The register: its number, and the store that it keeps whole.
ghost use Rattle.std.specs.Prelude.{◌≡◌, ℕ, min, List, [], ◌∷◌, length, drop, is_err, Some, None, MatchResult};
ghost use Rattle.relation.specs.Bounds.{most_entries, most_stored};
ghost use Rattle.relation.specs.Refusals.{plain?};
ghost use Rattle.relation.specs.Stored.{blank_row};
ghost use Rattle.relation.specs.Values.{word};
ghost use Rattle.tree.specs.Trees.{blank as blank_node};
ghost use Rattle.register.specs.Layout.{Room, Blanks, Apart, Empty, Fitting};
ghost use Rattle.register.specs.State.{held, used, rows_of, Drafted, Put, Issued, Removed, blanked};
ghost use Rattle.register.specs.Refusals.{err_of, draft_no, put_no, publish_no, handed_back, abandon_no, drop_no, show_no, show_text, Shown};
ghost use Rattle.register.specs.Runs.{Step};
ghost use Rattle.register.specs.History.{Event, drafted, put, published, abandoned, dropped, shown, Accounts};

use crate::entries::Directory;
use crate::slips::Slip;
use crate::store::Store;
use crate::works::blank_work;
use relation::bounds::MOST_STORED;
use relation::kinds::Kind;
use relation::refusals::{Reason, Refusal};
use relation::rows::Row;
use tree::Node;

#[derive(Drop)]
pub struct Register<'a> {
    number: u64,
    store: Store<'a>,
    ghost all: { length store.directory.entries ≡ most_entries },
    ghost room: { Room store.directory.entries store.rows.now },
    ghost blanks: { Blanks store.directory.entries store.rows.now },
    ghost apart: { Apart store.directory.entries },
    ghost empty: { Empty store.directory.entries },
    ghost fitting: { Fitting store.directory.entries store.rows.now },
}

impl<'a> Register<'a> {
    // A register that holds nothing, over rows that it blanks.
    pub fn new(number: u64, rows: &'a mut [Row]) -> Register<'a>
        ensures number { result.number ≡ number }
        ensures empty { (n : ℕ) → held result.store n ≡ None }
        ensures used { used result.store ≡ 0 }
        ensures blank { Blanks result.store.directory.entries result.store.rows.now }
        ensures rows { rows_of result.store ≡ min (length rows.old) most_stored }
        ensures past { drop most_stored result.store.rows.now ≡ drop most_stored rows.old }
        ensures accounts { Accounts [] result.store }
    {
        let n = rows.len().min(MOST_STORED);
        rows[..n].fill(Row::blank());
        let directory = Directory::empty();
        Register {
            number,
            store: Store { rows, directory },
        }
    }

    // Begins a draft, and answers a slip for it.
    pub fn draft(&mut self, name: &[u8], kinds: &[Kind]) -> Result<Slip, Refusal>
        ensures number { self.new.number ≡ self.old.number }
        ensures refused { err_of result ≡ plain? (draft_no self.old.store name.now kinds.now) }
        ensures after { MatchResult result (λ slip. (slip.register ≡ self.old.number) × (slip.name.code ≡ word name.now) × Drafted self.old.store self.new.store (word name.now) kinds.now) (λ _. self.new.store ≡ self.old.store) }
        ensures steps { Step self.old.number (drafted name.now kinds.now (is_err result)) self.old.store self.new.store }
        ensures accounts { (h : List Event) → Accounts h self.old.store → Accounts (drafted name.now kinds.now (is_err result) ∷ h) self.new.store }
    {
        self.store.draft(self.number, name, kinds)
    }

    // Adds a row of the given kinds to the draft, and answers how many rows it has then.
    pub fn put(&mut self, slip: &Slip, row: Row, kinds: &[Kind]) -> Result<usize, Refusal>
        ensures number { self.new.number ≡ self.old.number }
        ensures refused { err_of result ≡ plain? (put_no self.old.number self.old.store slip.now row kinds.now) }
        ensures after { MatchResult result (λ k. Put self.old.store self.new.store slip.now.name.code row k) (λ _. self.new.store ≡ self.old.store) }
        ensures steps { Step self.old.number (put slip.now row kinds.now (is_err result)) self.old.store self.new.store }
        ensures accounts { (h : List Event) → Accounts h self.old.store → Accounts (put slip.now row kinds.now (is_err result) ∷ h) self.new.store }
    {
        self.store.put(self.number, slip, row, kinds)
    }

    // Publishes the draft with the canonical list of its rows, frees the rows saved, and answers how many
    // rows it has. A refusal hands the slip back. The work area is blank in any case.
    pub fn publish(
        &mut self,
        slip: Slip,
        work: &mut [Row],
        index: &mut [Node],
    ) -> Result<usize, (Refusal, Slip)>
        ensures number { self.new.number ≡ self.old.number }
        ensures refused { err_of result ≡ handed_back (publish_no self.old.number self.old.store slip work.old index.old) slip }
        ensures after { MatchResult result (λ k. Issued self.old.store self.new.store slip.name.code k) (λ _. self.new.store ≡ self.old.store) }
        ensures work { work.new ≡ blanked blank_row work.old }
        ensures index { index.new ≡ blanked blank_node index.old }
        ensures steps { Step self.old.number (published slip work.old index.old (is_err result)) self.old.store self.new.store }
        ensures accounts { (h : List Event) → Accounts h self.old.store → Accounts (published slip work.old index.old (is_err result) ∷ h) self.new.store }
    {
        let Some(i) = self.store.draft_of(self.number, &slip) else {
            blank_work(work, index);
            return Err((Reason::SlipMisfit.into(), slip));
        };
        // The slip is spent or handed back, so it goes another way in each arm.
        match self.store.publish(i, work, index) {
            Ok(kept) => {
                let Slip {
                    register: _,
                    name: _,
                } = slip;
                Ok(kept)
            }
            Err(refusal) => Err((refusal, slip)),
        }
    }

    // Ends the draft and frees its rows, and answers how many there were. The slip is spent in any case.
    pub fn abandon(&mut self, slip: Slip) -> Result<usize, Refusal>
        ensures number { self.new.number ≡ self.old.number }
        ensures refused { err_of result ≡ plain? (abandon_no self.old.number self.old.store slip) }
        ensures after { MatchResult result (λ k. Removed self.old.store self.new.store slip.name.code k) (λ _. self.new.store ≡ self.old.store) }
        ensures steps { Step self.old.number (abandoned slip (is_err result)) self.old.store self.new.store }
        ensures accounts { (h : List Event) → Accounts h self.old.store → Accounts (abandoned slip (is_err result) ∷ h) self.new.store }
    {
        let place = self.store.draft_of(self.number, &slip);
        let Slip {
            register: _,
            name: _,
        } = slip;
        let i = place.ok_or(Reason::SlipMisfit)?;
        Ok(self.store.clear(i))
    }

    // Frees a published relation, and answers how many rows it had.
    pub fn drop(&mut self, name: &[u8]) -> Result<usize, Refusal>
        ensures number { self.new.number ≡ self.old.number }
        ensures refused { err_of result ≡ plain? (drop_no self.old.store name.now) }
        ensures after { MatchResult result (λ k. Removed self.old.store self.new.store (word name.now) k) (λ _. self.new.store ≡ self.old.store) }
        ensures steps { Step self.old.number (dropped name.now (is_err result)) self.old.store self.new.store }
        ensures accounts { (h : List Event) → Accounts h self.old.store → Accounts (dropped name.now (is_err result) ∷ h) self.new.store }
    {
        let i = self.store.published_at(name).ok_or(Reason::Name)?;
        Ok(self.store.clear(i))
    }

    // Writes a published relation as text: `NAME KINDS ROWS`, then a line `FROM UNTIL VALUE ..` for each row.
    // Answers its bytes, and leaves later ones alone.
    pub fn show(&self, name: &[u8], output: &mut [u8]) -> Result<usize, Refusal>
        ensures refused { err_of result ≡ plain? (show_no self.now.store name.now output.old) }
        ensures after { MatchResult result (λ k. Shown (show_text self.now.store name.now) k output.old output.new) (λ _. output.new ≡ output.old) }
        ensures steps { Step self.now.number (shown name.now output.old (is_err result)) self.now.store self.now.store }
        ensures accounts { (h : List Event) → Accounts h self.now.store → Accounts (shown name.now output.old (is_err result) ∷ h) self.now.store }
    {
        self.store.show(name, output)
    }
}
