// What synthesis is lent. (The tables' definitions have the fields' names, so they go by other names here.)
ghost use Rattle.std.specs.Prelude.{◌≡◌};
ghost use Rattle.synthesis_tables.specs.Window.{window as standard_window};
ghost use Rattle.synthesis_tables.specs.Matrixing.{matrixing as matrixing_rows};

// Both tables together: built once a granule and lent on.
#[derive(Drop)]
pub struct SynthesisTables {
    pub matrixing: [[f32; 64]; 32],
    pub window: [f32; 512],
    ghost cosines: { matrixing ≡ matrixing_rows },
    ghost printed: { window ≡ standard_window },
}
