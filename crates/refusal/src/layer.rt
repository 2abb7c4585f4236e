// The layer in which a refusal began.
ghost use Rattle.std.specs.Prelude.{◌≡◌};
ghost use Rattle.refusal.specs.Layers.{layer_number};

#[derive(Clone, Copy, PartialEq, Eq, Debug)]
pub enum Layer {
    // a memory or a kind of value
    Data = 1,
    // the engine
    Engine = 2,
    // the reader of schedules or the writer of listings
    Text = 3,
}

// The layer's number: 1, 2 or 3.
impl From<Layer> for u8 {
    ghost from_gives = { λ layer n. n ≡ layer_number layer };

    fn from(layer: Layer) -> u8 {
        layer as u8
    }
}
