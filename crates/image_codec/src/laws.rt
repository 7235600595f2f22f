//! The law of images: their format is exact, so that no bytes spell two of them.
ghost use Rattle.byte_format.specs.Format.{IsExact, HasOneReading};
ghost use Rattle.image_codec.specs.Image.{image_format, body_format};

/// The formats of images and of their records are exact: no bytes spell two images, and no spelling begins another.
pub fn images_are_exact()
    ensures fields { IsExact image_format }
    ensures exact { IsExact body_format }
    ensures one { HasOneReading body_format }
{}
