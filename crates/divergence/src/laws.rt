//! Laws of the classes that callers may rest on. The functions do nothing: their contracts are the laws.

ghost use Rattle.divergence.specs.Laws.{ClassesByPlace, LongerMapsKeepSame, SameWhereEqual};

pub use crate::bag_laws::one_ascending_list;
pub use id_pairs::carrying_laws::renamed_are_carried;

/// The class is `Same` exactly where the outcomes are equal: rows as bags, images as maps, counts and faults as they are,
/// each captured id being replaced by its image.
pub fn same_where_equal()
    ensures { SameWhereEqual }
{}

/// The line of the class fits, and none above it.
pub fn classes_by_place()
    ensures { ClassesByPlace }
{}

/// What is `Same` under a map is so under a longer one.
pub fn longer_maps_keep_same()
    ensures { LongerMapsKeepSame }
{}
