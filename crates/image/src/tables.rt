ghost use Rattle.std.specs.Prelude.{◌≡◌, true};
ghost use Rattle.image.specs.Layouts.{headed, counted, layout_of};

use crate::layout::Layout;

/// An image whose header is right, with the places of its tables. It borrows the image and copies none of it.
#[derive(Clone, Copy)]
pub struct Tables<'a> {
    image: &'a [u8],
    layout: Layout,
    ghost marked: { headed image.now ≡ true },
    ghost sized: { counted image.now ≡ true },
    ghost placed: { layout ≡ layout_of image.now },
}

impl<'a> Tables<'a> {
    /// How many rows each table has, and where it lies.
    pub fn layout(&self) -> Layout
        ensures { result ≡ layout_of self.now.image.now }
    {
        self.layout
    }
}

mod readers;
