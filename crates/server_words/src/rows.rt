//! Images of rows, ascending by row.

ghost use Rattle.std.specs.Prelude.{◌≡◌, ◌+◌, ◌<◌, ◌≤◌, [], length, vec_len, IfOk, OnOk, OnErr};
ghost use Rattle.std.specs.Vec.{vec_capacity};
ghost use Rattle.server_words.specs.Rows.{IsRising, noted, one, placed};
ghost use Rattle.server_words.specs.Inside.Rows.{place};

use desk_values::{Copied, Image, List, Memory};
use std::alloc::Global;
use std::marker::Model;

/// Images of rows, ascending by row. Contracts see the list.
#[derive(Drop)]
pub struct Rows {
    images: Vec<Image>,
}

impl Model for Rows {
    ghost use Rattle.std.specs.Prelude.{List};
    ghost use Rattle.desk_values.specs.declared.value.Image.{Image as RowImage};
    ghost use Rattle.server_words.specs.Rows.{IsRising};

    ghost Value = { List RowImage };

    ghost view = { λ a. a.images.items };

    ghost invariant = { λ a. IsRising a.images.items };
}

impl Rows {
    /// No rows.
    pub fn new(alloc: Global) -> Self
        ensures { result ≡ [] }
    {
        Rows {
            images: Vec::new(alloc),
        }
    }

    /// The images themselves.
    pub fn into_vec(self) -> Vec<Image>
        ensures { result.items ≡ self }
    {
        self.images
    }

    /// How many images there are.
    pub fn len(&self) -> usize
        ensures { result ≡ length self.now }
    {
        self.images.len()
    }

    /// The images in order.
    pub fn as_slice(&self) -> &[Image]
        ensures value { result.now ≡ self.now }
        ensures rising { IsRising self.now }
    {
        self.images.as_slice()
    }

    /// Copies of the images.
    pub fn images(&self, alloc: Global) -> Result<Vec<Image>, Memory>
        ensures { IfOk result (λ images. images.items ≡ self.now) }
    {
        copies(alloc, &self.images)
    }

    /// A copy.
    pub fn copied(&self, alloc: Global) -> Result<Rows, Memory>
        ensures { IfOk result (λ rows. rows ≡ self.now) }
    {
        let images = copies(alloc, &self.images)?;
        Ok(Rows { images })
    }

    /// Notes further changes: of each row the last stands. An `Err` changes nothing.
    pub fn note(&mut self, changes: Vec<Image>) -> Result<(), Memory>
        ensures ok { OnOk result (self.new ≡ noted self.old changes.items) }
        ensures err { OnErr result (self.new ≡ self.old) }
    {
        self.images.reserve(changes.len())?;
        note_within(&mut self.images, changes);
        Ok(())
    }
}

fn copies(alloc: Global, images: &[Image]) -> Result<Vec<Image>, Memory>
    ensures { IfOk result (λ copied. copied.items ≡ images.now) }
{
    let list = List::from_slice(alloc, images)?;
    Ok(list.into_vec())
}

/// How many images stand below the row.
fn place_of(images: &[Image], row: u64) -> usize
    requires { IsRising images.now }
    ensures { result ≡ place row images.now }
{
    match images.binary_search_by_key(&row, |image| image.row) {
        Ok(at) => at,
        Err(at) => at,
    }
}

/// Puts an image where there is room for it.
fn put_within(images: &mut Vec<Image>, image: Image)
    requires rising { IsRising images.old.items }
    requires room { vec_len images.old < vec_capacity images.old }
    ensures items { images.new.items ≡ placed one image images.old.items }
    ensures rising { IsRising images.new.items }
    ensures len { vec_len images.new ≤ vec_len images.old + 1 }
    ensures capacity { vec_capacity images.old ≤ vec_capacity images.new }
{
    let at = place_of(images, image.row);
    if at < images.len() && images[at].row == image.row {
        images[at] = image;
    } else {
        images.insert(at, image).unwrap();
    }
}

/// Notes changes, where there is room for them.
fn note_within(images: &mut Vec<Image>, changes: Vec<Image>)
    requires rising { IsRising images.old.items }
    requires room { vec_len images.old + vec_len changes ≤ vec_capacity images.old }
    ensures items { images.new.items ≡ noted images.old.items changes.items }
    ensures rising { IsRising images.new.items }
{
    let mut left = changes;
    left.reverse();
    while let Some(image) = left.pop() {
        put_within(images, image);
    }
}
