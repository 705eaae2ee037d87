ghost use Rattle.std.specs.Prelude.{◌≡◌, ◌≤◌, ℕ, List, All, length, Ok};
ghost use Rattle.ds_base.specs.Limit.{most_of};
ghost use Rattle.ds_base.specs.Values.{Row};
ghost use Rattle.ds_base.specs.declared.number.Limit.TheVariants.{Vectors as VectorLimit};
ghost use Rattle.ds_lines.specs.Line.{lines_of};
ghost use Rattle.ds_lines.specs.Print.{text_of};
ghost use Rattle.ds_design.specs.Rows.{AreVectors, Rows};
ghost use Rattle.ds_rows.specs.Print.{row_words};
ghost use Rattle.ds_rows.specs.Vector.{vectors_of};
ghost use Rattle.ds_rows.specs.Worked.{AreWorked};

/// The text that prints vectors stands for these vectors.
pub fn printed_is_read()
    ensures { (vectors : Rows) → AreVectors vectors
        → vectors_of vectors.width (lines_of (text_of (row_words vectors.rows))) ≡ Ok vectors }
{}

/// Short texts stand for what they should.
pub fn worked_vectors()
    ensures { AreWorked }
{}
