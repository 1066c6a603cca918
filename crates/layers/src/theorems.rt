// The theorems on the day sets of the layers. Each function stands for the theorem that its contract names.
ghost use Rattle.layers.specs.Theorems.{Selection, Projection, Restriction, Union};

// On every day a select's set is the selection from the set below.
pub fn select_is_selection()
    ensures { Selection }
{}

// On every day a project's set is the projection of the set below.
pub fn project_is_projection()
    ensures { Projection }
{}

// On every day a window's set is the set below if its period holds the day, else empty.
pub fn window_is_restriction()
    ensures { Restriction }
{}

// On every day a union's set is the union of the two sets below.
pub fn union_is_of_both()
    ensures { Union }
{}
