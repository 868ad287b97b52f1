// What the profile speaks of: the numbers of the scalar slots, and the shape of a picture and its blocks.
#![tactic(auto)]

// The numbers of the scalar slots that the profile looks at, by name.
#[derive(Clone, Copy, Debug, PartialEq, Eq)]
pub struct Numbers {
    pub width: usize,
    pub height: usize,
    pub compression: usize,
    pub photometric: usize,
    pub fill_order: usize,
    pub orientation: usize,
    pub samples: usize,
    pub strip_rows: usize,
    pub planar: usize,
    pub predictor: usize,
    pub tile_width: usize,
    pub tile_height: usize,
}

// The picture's sides and those of a block, and the head that made it.
#[derive(Clone, Copy, Debug, PartialEq, Eq)]
pub struct Shape {
    pub width: usize,
    pub height: usize,
    pub block_width: usize,
    pub block_height: usize,
    pub tiled: bool,
    pub mono: bool,
}
