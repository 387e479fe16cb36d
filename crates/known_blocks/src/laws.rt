// How blocks stand beside the entries of a transcript.

ghost use Rattle.std.specs.Prelude.{◌≡◌, ◌++◌, ℕ, Bool, List, true};
ghost use Rattle.entry_laws.specs.OpenEntries.{open_entries};
ghost use Rattle.known_blocks.specs.Known.{AreShown, known_text, with_block};
ghost use Rattle.known_blocks.specs.declared.known.Shown.{Shown as Shows};
ghost use Rattle.run_transcript.specs.Entries.{Entry, filled};
ghost use Rattle.script_text.specs.declared.block.Block.{Block};

/// Where the one open entry of a line is filled and so is its query's block, the blocks are those of the entries again.
pub fn fill_shows()
    ensures { (sure : ℕ → Bool) (entries : List Entry) (shown : List Shows) (line : ℕ) (block said : Block) → open_entries line entries ≡ 1 → (sure line ≡ true → block ≡ said)
        → AreShown (λ other. sure other ≡ true) entries shown → AreShown (λ other. sure other ≡ true) (filled line said entries) (with_block line block shown) }
{}

/// What was known stays in front of what is known with a block more.
pub fn fill_adds()
    ensures { (shown : List Shows) (line : ℕ) (block : Block) → (more : List ℕ) × (known_text (with_block line block shown) ≡ known_text shown ++ more) }
{}
