// The limits of document 01's "Settings and sizes" and "Finding a point" that the code tests, each
// once.

// A coordinate of a position is from -1,000,000 to 1,000,000.
pub const FARTHEST: u32 = 1000000;

// All d + 1 coordinates of a stored point are within 1,000,005 either way.
pub const FARTHEST_POINT: u32 = 1000005;

// Dimension d: 1 to 5.
pub const MOST_D: usize = 5;

// The most coordinates of a position and of a lattice point, which have d + 1.
pub const MOST_COORDS: usize = 6;

// Fineness S: 1 to 64.
pub const MOST_FINENESS: u32 = 64;

// Capacity C: 1 to 8,192 points.
pub const MOST_CAPACITY: usize = 8192;

// A value is from -1,000,000 to 1,000,000.
pub const MOST_VALUE: u32 = 1000000;

// At most 4,096 readings in a table.
pub const MOST_READINGS: usize = 4096;
