// Table 21 of EN 13757-4:2019, 10.2: frequencies and channels of mode N, in kilohertz.

// First centre, spacing, tolerance and number of channels of each index from 1 on; at 0, where the table has no row,
// zeros.
pub static TABLE: [(f64, f64, f64, usize); 14] = [
    (0.0, 0.0, 0.0, 0),
    (169406.25, 12.5, 2.0, 6),
    (169406.25, 12.5, 1.5, 6),
    (169406.25, 12.5, 1.5, 6),
    (169437.5, 50.0, 2.5, 1),
    (169481.25, 12.5, 2.0, 1),
    (169481.25, 12.5, 1.5, 1),
    (169493.75, 12.5, 1.5, 8),
    (169493.75, 12.5, 1.5, 8),
    (169493.75, 12.5, 1.5, 8),
    (169593.75, 12.5, 2.0, 18),
    (169593.75, 12.5, 1.5, 18),
    (169593.75, 12.5, 1.5, 18),
    (169625.0, 50.0, 2.5, 4),
];
