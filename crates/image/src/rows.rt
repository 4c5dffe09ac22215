// Reading rows, and copying them.
ghost use Rattle.std.specs.Prelude.{◌≡◌, ◌-◌, ◌<◌, min, length, take, drop};
ghost use Rattle.image.specs.Rows.{RowsFit, row, painted};
ghost use Rattle.image.specs.Images.{image_of};

use crate::element::Element;
use crate::source_rows::SourceRows;

impl<'a, T> SourceRows<'a, T> {
    // Row `y`, or nothing past the last.
    #[tactic(auto, using(crate::proofs::RowsOf::row_past, crate::proofs::RowsOf::row_within))]
    pub fn row(&self, y: usize) -> &'a [T]
        ensures row { result.now ≡ row (image_of self.now) y }
        ensures length { y < self.now.height → length result.now ≡ self.now.row_length }
    {
        if y >= self.height {
            return &[];
        }
        let from = y * self.stride;
        &self.elements[from..from + self.row_length]
    }

    // The rows from row `y` on, `count` of them or as many as there are.
    #[tactic(auto, using(crate::proofs::RowsOf::no_rows_from))]
    pub fn part(&self, y: usize, count: usize) -> SourceRows<'a, T>
        ensures image { image_of result ≡ take count (drop y (image_of self.now)) }
        ensures width { result.row_length ≡ self.now.row_length }
        ensures height { result.height ≡ min count (self.now.height - y) }
    {
        if y >= self.height {
            return SourceRows {
                elements: self.elements,
                row_length: self.row_length,
                stride: self.stride,
                height: 0,
            };
        }
        SourceRows {
            elements: &self.elements[y * self.stride..],
            row_length: self.row_length,
            stride: self.stride,
            height: count.min(self.height - y),
        }
    }
}

// Copies rows, and no gap. By row number: of what `chunks_mut` lends a proof keeps no element. (The engine has its own: this
// one asks that rows fit, and so it is not public.)
#[tactic(auto, using(crate::proofs::Paint::painted_none, crate::proofs::Paint::painted_more, crate::proofs::Strides::row_fits))]
pub(crate) fn copy_rows<T: Element>(src: &SourceRows<'_, T>, dst: &mut [T], dst_stride: usize)
    requires { RowsFit src.now.row_length dst_stride src.now.height (length dst.old) }
    ensures { dst.new ≡ painted dst.old dst_stride (row (image_of src.now)) src.now.height }
{
    let n = src.row_length;
    for y in 0..src.height {
        let to = y * dst_stride;
        dst[to..to + n].copy_from_slice(src.row(y));
    }
}
