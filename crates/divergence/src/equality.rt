//! Rows as a bag, and images as a map from rows.

ghost use Rattle.std.specs.Prelude.{◌≡◌, ℕ, IfOk};
ghost use Rattle.std.specs.List.{list_all};
ghost use Rattle.std.specs.Option.{option_copied};
ghost use Rattle.std.specs.Ordering.{nat_cmp};
ghost use Rattle.std.specs.BTreeMap.{get};
ghost use Rattle.divergence.specs.Bags.Equality.{found, same_bag, same_image, same_map};

use desk_values::{Image, Memory, RowList, Same, same_items, sort_rows};
use std::alloc::Global;
use std::collections::BTreeMap;

// Whether the two have the same rows, as often each.
pub(crate) fn same_bag(rows: &RowList, others: &RowList) -> Result<bool, Memory>
    ensures { IfOk result (λ same. same ≡ same_bag rows.now others.now) }
{
    let sorted = sort_rows(rows)?;
    let also_sorted = sort_rows(others)?;
    Ok(same_items(sorted.as_slice(), also_sorted.as_slice()))
}

// Whether each row has the same image in both.
pub(crate) fn same_map(alloc: Global, images: &[Image], others: &[Image]) -> Result<bool, Memory>
    ensures { IfOk result (λ same. same ≡ same_map images.now others.now) }
{
    let left = by_row(alloc, images)?;
    let right = by_row(alloc, others)?;
    Ok(agree_on(images, &left, &right) && agree_on(others, &left, &right))
}

// The images by row. Of several of one row, the first.
fn by_row(alloc: Global, images: &[Image]) -> Result<BTreeMap<u64, &Image>, Memory>
    ensures { IfOk result (λ map. (row : ℕ) → option_copied (get nat_cmp map row) ≡ found images.now row) }
{
    let count = images.len();
    let mut map = BTreeMap::new(alloc);
    for step in 0..count {
        let image = &images[count - 1 - step];
        map.insert(image.row, image)?;
    }
    Ok(map)
}

// Whether the two maps have the same image at the rows of these.
fn agree_on(images: &[Image], left: &BTreeMap<u64, &Image>, right: &BTreeMap<u64, &Image>) -> bool
    ensures { result ≡ list_all
        (λ image. same_image (option_copied (get nat_cmp left.now image.row))
        (option_copied (get nat_cmp right.now image.row))) images.now }
{
    for image in images {
        if !same_image(left.get(&image.row), right.get(&image.row)) {
            return false;
        }
    }
    true
}

// Whether two images of one row are equal.
fn same_image(left: Option<&&Image>, right: Option<&&Image>) -> bool
    ensures { result ≡ same_image (option_copied (option_copied left.entry)) (option_copied (option_copied right.entry)) }
{
    match (left, right) {
        (None, None) => true,
        (Some(image), Some(other)) => image.table == other.table && image.left.same(&other.left),
        _ => false,
    }
}
