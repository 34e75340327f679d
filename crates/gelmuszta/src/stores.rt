// The starting store, and whether a store is sound.
ghost use Rattle.std.specs.Prelude.{◌≡◌, ◌&&◌};
ghost use Rattle.sizes.specs.Sizes.{memory};
ghost use Rattle.store.specs.Records.{starting_store};
ghost use Rattle.store.specs.Sound as soundness;
ghost use Rattle.image.specs.Images.{good, store_in, image_of};

use image::IMAGE;

// Writes the image of the starting store, in which all clusters are inactive: it is all zeros. The memory that goes with it is all zeros,
// and is the caller's to clear.
#[unsafe(no_mangle)]
pub extern "C" fn gelmuszta_start(image: &mut [u8; IMAGE])
    ensures { image.new ≡ image_of starting_store }
{
    *image = [0; IMAGE];
}

// Whether the image holds a store that is sound with a memory of 16,384 bytes.
#[unsafe(no_mangle)]
pub extern "C" fn gelmuszta_sound(image: &[u8; IMAGE]) -> bool
    ensures { result ≡ (good image.now && soundness.sound (store_in image.now) memory) }
{
    image::sound_in(image)
}
