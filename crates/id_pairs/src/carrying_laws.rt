//! Laws of what is carried, on which callers may rest. The functions do nothing: their contracts are the laws.

ghost use Rattle.std.specs.Prelude.{◌≡◌, List, ◌++◌, length, Some};
ghost use Rattle.desk_values.specs.declared.value.Image.{Image};
ghost use Rattle.desk_values.specs.declared.value.Value.{Value};
ghost use Rattle.id_pairs.specs.Pairs.{IdPair};
ghost use Rattle.id_pairs.specs.Carrying.Carried.{carried_images, carried_rows};
ghost use Rattle.id_pairs.specs.Carrying.Laws.{RenamedAreCarried};

/// What is carried by a map is carried so by a longer one.
pub fn longer_maps_carry_the_same()
    ensures rows { (pairs more : List IdPair) (rows others : List (List Value))
        → carried_rows pairs rows ≡ Some others → carried_rows (pairs ++ more) rows ≡ Some others }
    ensures images { (pairs more : List IdPair) (images others : List Image)
        → carried_images pairs images ≡ Some others → carried_images (pairs ++ more) images ≡ Some others }
{}

/// As many rows are carried as there are.
pub fn carried_rows_keep_their_number()
    ensures { (pairs : List IdPair) (rows others : List (List Value)) → carried_rows pairs rows ≡ Some others
        → length rows ≡ length others }
{}

/// Values that are renamed are carried to one another, where no id stands twice on one side of the map.
pub fn renamed_are_carried()
    ensures { RenamedAreCarried }
{}
