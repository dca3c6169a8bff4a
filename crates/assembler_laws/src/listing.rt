//! Listing and assembling.
ghost use Rattle.std.specs.Prelude.{◌≡◌, ℕ, ◌+◌, ◌*◌, ◌<◌, ◌≤◌, ◌%◌, ◌^◌, List, Ok, length};
ghost use Rattle.std.specs.List.{AllByRecursion};
ghost use Rattle.std.specs.Int.{to_le_bytes, w32};
ghost use Rattle.asm_layout.specs.declared.section.Section.TheVariants.{Text};
ghost use Rattle.asm_layout.specs.Layout.{base_of};
ghost use Rattle.asm_layout.specs.Limits.{section_limit};
ghost use Rattle.mips_asm.specs.Assembled.{assembled};
ghost use Rattle.mips_list.specs.WordText.{word_text};
ghost use Rattle.assembler_laws.specs.OneWord.{one_word};
ghost use Rattle.assembler_laws.specs.Statement.{Puts};
ghost use Rattle.assembler_laws.specs.Texts.{program_of_words, texts_from};

/// Law: the text of a word that stands at an address is, in whichever line, a statement that puts the
/// word where it stands at that address.
pub fn law_listed_words_are_statements()
    ensures { (number start word address : ℕ) → word < 2 ^ 32 → address % 4 ≡ 0 → address + 4 < 2 ^ 32
        → Puts (record { number = number; start = start; text = word_text word address }) address (to_le_bytes w32 word) }
{}

/// Law: the text of a word at the text's first address assembles to the program of that word.
pub fn law_listed_words_assemble()
    ensures { (word : ℕ) → word < 2 ^ 32 → assembled (word_text word (base_of Text)) ≡ Ok (one_word word) }
{}

/// Law: the texts of words that stand one behind the other from the text's first address on, a line for
/// each, assemble to the program of these words. They are one word or more, and as many as a section may
/// have.
pub fn law_listed_texts_assemble()
    ensures { (words : List ℕ) → AllByRecursion (λ word. word < 2 ^ 32) words → 0 < length words → 4 * length words ≤ section_limit
        → assembled (texts_from (base_of Text) words) ≡ Ok (program_of_words words) }
{}
