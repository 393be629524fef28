// The name of an order: its kind and its two parameters, as an image's header gives it.

// What a make of order is made with; each is below 16 in a header. A make has a `new` and no `TryFrom`, which would be no
// plainer: parameters are not another form of the order, as a name is.
#[derive(Clone, Copy, PartialEq, Eq, Default)]
pub struct Parameters {
    pub p: u8,
    pub q: u8,
}

#[derive(Clone, Copy, PartialEq, Eq, Default)]
pub struct OrderName {
    // A plain number, since a header may name a kind that no order has.
    pub kind: u8,
    pub parameters: Parameters,
}
