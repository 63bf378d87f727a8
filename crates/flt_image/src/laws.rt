//! The table and the numbers of an image fit together, and a driver can be made with the numbers.
ghost use Rattle.std.specs.Prelude.{◌≢◌, IsTrue};
ghost use Rattle.std.specs.List.{AllPairs};
ghost use Rattle.flt_nvm.specs.Table.{serves};
ghost use Rattle.flt_store_model.specs.Layout.{numbers};
ghost use Rattle.flt_image.specs.Table.{block_table};

/// A driver that was made with the numbers of an image serves each block of the table.
pub fn numbers_serve_table()
    ensures { IsTrue (serves numbers block_table) }
{}

/// No number of an image is there twice, as a driver asks of its numbers.
pub fn numbers_are_distinct()
    ensures { AllPairs (λ a b. a ≢ b) numbers }
{}
