// That written images open, on a contract.
ghost use Rattle.round_trip.specs.Opens.{WrittenImagesOpen};

use labels::order::Order;

// For every order, about what `write` promises of its buffer and what `open` does with an image.
pub fn written_images_open<O: Order>()
    ensures { (o : O) → WrittenImagesOpen (O.Order.meaning o) }
{}
