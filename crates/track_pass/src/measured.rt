// What a track is made from: anchors and links in columns that a caller lends.

// Anchors, or links: how many there are, and of each its epoch, three floats of position (a link's change in position) and three sigmas.
#[derive(Clone, Copy)]
pub struct Measured<'a> {
    pub count: usize,
    pub epoch: &'a [usize],
    pub value: &'a [f64],
    pub sigma: &'a [f64],
}

// So many epochs, with what was measured of them. A link starts at its epoch and ends at the next.
#[derive(Clone, Copy)]
pub struct Track<'a> {
    pub epochs: usize,
    pub anchors: Measured<'a>,
    pub links: Measured<'a>,
}
