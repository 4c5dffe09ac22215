// Rows that are lent for reading, as the check of a store found them.
ghost use Rattle.std.specs.Prelude.{length};
ghost use Rattle.image.specs.Rows.{RowsFit};

// `height` rows of `row_length` elements, `stride` apart.
#[derive(Drop)]
pub struct SourceRows<'a, T> {
    pub elements: &'a [T],
    pub row_length: usize,
    pub stride: usize,
    pub height: usize,
    ghost fit: { RowsFit row_length stride height (length elements.now) },
}
