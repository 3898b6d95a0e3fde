ghost use Rattle.std.specs.Prelude.{◌≡◌, ℕ, List, ◌+◌, ◌++◌, ◌≤◌, length, true, false};
ghost use Rattle.std.specs.Prelude.{◌↔◌, Some};
ghost use Rattle.std.specs.List.{AllByRecursion, flat_map};
ghost use Rattle.ics_text.specs.ContentLines.{Param, Parts, IsContent, IsParams, content_of, first_value, param_of};
ghost use Rattle.ics_text.specs.Folding.{Written, IsWritten, folded_lines, written_text};
ghost use Rattle.ics_text.specs.Bytes.{begins, is_blank};
ghost use Rattle.ics_text.specs.Cuts.{ends_line};
ghost use Rattle.ics_text.specs.Parts.{Part, last_number, lines_left};
ghost use Rattle.ics_text.specs.Unfolded.{begins_with_fold, lines_from, unfolded, without_mark, Rises, Within};

/// The numbers of the lines of a file rise strictly.
pub fn numbers_rise()
    ensures { (file : List ℕ) → Rises 0 (unfolded file) }
{}

/// A file has at most one line more than it has bytes.
pub fn numbers_within()
    ensures { (file : List ℕ) → Within (length file + 1) (unfolded file) }
{}

/// A part of a file has at most one line more than it has bytes.
pub fn part_numbers_within()
    ensures lines { (part : Part) → Within (part.breaks + length part.bytes + 1) (lines_left part) }
    ensures last { (part : Part) → last_number part ≤ part.breaks + length part.bytes + 1 }
{}

/// The lines of a part that is cut are those of its first bytes and those of the others.
pub fn lines_apart()
    ensures { (breaks : ℕ) (head rest : List ℕ) → ends_line head ≡ true → begins is_blank rest ≡ false → lines_from (breaks + 1) (head ++ rest)
        ≡ lines_from (breaks + 1) head ++ lines_from (last_number (record { breaks = breaks; bytes = head })) rest }
{}

/// The same of a file that is cut. Its first bytes tell whether it begins with a byte order mark, and whether it begins with a fold.
pub fn unfolded_apart()
    ensures lines { (head rest : List ℕ) → ends_line head ≡ true → begins is_blank rest ≡ false → unfolded (head ++ rest)
        ≡ unfolded head ++ lines_from (last_number (record { breaks = 0; bytes = without_mark head })) rest }
    ensures fold { (head rest : List ℕ) → ends_line head ≡ true → begins_with_fold (head ++ rest) ≡ begins_with_fold head }
{}

/// The text of parameters has at most one reading.
pub fn params_read_once()
    ensures { (text : List ℕ) (ps qs : List Param) → IsParams text ps → IsParams text qs → ps ≡ qs }
{}

/// The parts that are computed of a line are those that the grammar gives it. None are computed exactly if the grammar gives none.
pub fn content_by_grammar()
    ensures { (line : List ℕ) (parts : Parts) → content_of line ≡ Some parts ↔ IsContent line parts.name parts.params parts.value }
{}

/// The value that is computed from the text of parameters is the first value of the first parameter with that name.
pub fn param_by_grammar()
    ensures { (name text : List ℕ) (ps : List Param) → IsParams text ps → param_of name text ≡ first_value name ps }
{}

/// Unfolding undoes folding. Lines that are written with any folds and with either line end are read as they were before folding.
/// Each has the number of its first physical line.
pub fn unfolding_undoes_folding()
    ensures { (file : List ℕ) (lines : List Written) → AllByRecursion IsWritten lines → without_mark file ≡ flat_map written_text lines →
        unfolded file ≡ folded_lines 1 lines }
{}
