//! A page and its bytes.

ghost use Rattle.std.specs.Prelude.{◌≡◌, ◌==◌, if◌then◌else◌, length, Some, None};
ghost use Rattle.pl_block.specs.Bounds.{page_size};
ghost use Rattle.pl_images.specs.Image.{are_rising};

use bytes::Bytes;
use pl_block::PAGE_SIZE;
use std::marker::Model;

/// A page and its 8,192 bytes.
#[derive(Debug, Drop)]
pub struct Image {
    page: u32,
    pub(crate) bytes: Bytes,
}

impl Model for Image {
    ghost use Rattle.std.specs.Prelude.{◌≡◌, length};
    ghost use Rattle.pl_block.specs.Bounds.{page_size};
    ghost use Rattle.pl_images.specs.Image.{PageImage};

    ghost Value = { PageImage };

    ghost view = { λ i. record { page = i.page; bytes = i.bytes } };

    ghost invariant = { λ i. length i.bytes ≡ page_size };
}

impl Image {
    /// The image of a page, if the bytes are 8,192.
    pub fn new(page: u32, bytes: Bytes) -> Option<Image>
        // The page with these bytes, if they are as many as a page has, and else none.
        ensures value { result ≡ (if length bytes == page_size
            then Some (record { page = page; bytes = bytes }) else None) }
    {
        if bytes.len() == PAGE_SIZE {
            Some(Image { page, bytes })
        } else {
            None
        }
    }

    /// The number of the page.
    pub fn page(&self) -> u32
        // The image's page.
        ensures value { result ≡ self.now.page }
    {
        self.page
    }

    /// The bytes of the page.
    pub fn bytes(&self) -> &[u8]
        // The image's bytes.
        ensures value { result.now ≡ self.now.bytes }
        // They are as many as a page has.
        ensures len { length result.now ≡ page_size }
    {
        self.bytes.as_slice()
    }
}

/// Whether the pages of the images rise, so that each has one image at most.
pub fn are_rising(images: &[Image]) -> bool
    // Whether each page is above the one before it (`are_rising`).
    ensures value { result ≡ are_rising 0 images.now }
{
    let mut low = 0;
    for image in images {
        if u64::from(image.page()) < low {
            return false;
        }
        low = u64::from(image.page()) + 1;
    }
    true
}
