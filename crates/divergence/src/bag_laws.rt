//! Laws of bags and maps that callers may rest on. The functions do nothing: their contracts are the laws.

ghost use Rattle.std.specs.Prelude.{◌≡◌, ◌↔◌, List, Option, true};
ghost use Rattle.std.specs.Bool.{Decides};
ghost use Rattle.std.specs.List.Sorted.{IsPermutation};
ghost use Rattle.desk_values.specs.declared.value.Image.{Image};
ghost use Rattle.desk_values.specs.declared.value.Value.{Value};
ghost use Rattle.desk_values.specs.Sorting.{AreAscending};
ghost use Rattle.divergence.specs.Bags.Equality.{same_bag, same_left, same_map, same_row};
ghost use Rattle.divergence.specs.Bags.Laws.{AreSameMaps, OneAscendingList};

/// Two rows of which neither stands before the other are one row, and so is what is left of two.
pub fn rows_are_told_apart()
    ensures rows { (row other : List Value) → Decides (same_row row other) (row ≡ other) }
    ensures left { (left other : Option (List Value)) → Decides (same_left left other) (left ≡ other) }
{}

/// Two lists of rows are the same bag exactly where one is the other in another order.
pub fn bags_are_counted()
    ensures { (rows others : List (List Value)) → Decides (same_bag rows others) (IsPermutation rows others) }
{}

/// Two ascending lists of the same rows are one list.
pub fn one_ascending_list()
    ensures { OneAscendingList }
{}

/// Two lists of rows are the same bag exactly where they are one list in ascending order.
pub fn sorted_lists_tell_bags()
    ensures { (rows others sorted also : List (List Value)) → IsPermutation rows sorted → AreAscending sorted
        → IsPermutation others also → AreAscending also
        → (same_bag rows others ≡ true) ↔ (sorted ≡ also) }
{}

/// Two lists of images are the same map exactly where each row has the same image in both, or none.
pub fn maps_are_told_by_row()
    ensures { (images others : List Image) → Decides (same_map images others) (AreSameMaps images others) }
{}
