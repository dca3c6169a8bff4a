//! The law that ties the rows to what words spell.
ghost use Rattle.std.specs.Prelude.{◌≡◌, ℕ, is_none};
ghost use Rattle.mips_isa.specs.Encoding.{insn_of};
ghost use Rattle.mips_text.specs.WordRows.{is_nameless, row_of};

/// Law: each word has a row, but those whose instruction has no name.
pub fn law_words_have_rows()
    ensures { (word : ℕ) → is_none (row_of word) ≡ is_nameless (insn_of word) }
{}
