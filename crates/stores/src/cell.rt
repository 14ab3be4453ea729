use facts::Fact;
use std::marker::PhantomData;

// A place of the flat store; number 0 is empty.
#[derive(Clone, Copy)]
pub struct FlatCell<V> {
    pub number: u32,
    pub fact: Fact<V>,
}

// A place of the packed store in five words; number 0 is empty.
// The label has the count in its low 8 bits and the name in the 8 bits above.
// An argument's word is its meaning less the low end of the kind V.
#[derive(Clone, Copy)]
pub struct PackedCell<V> {
    pub number: u32,
    pub label: u32,
    pub first: u32,
    pub second: u32,
    pub third: u32,
    pub kind: PhantomData<V>,
}
