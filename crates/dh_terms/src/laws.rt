//! Laws of the calls of this crate, for the crates that rest on them: each is the contract of a function that does
//! nothing.

/// Shifting up and down again gives the expression, and the other way round where the variable that would be lost
/// is not free. A shifted variable is free exactly where the variable was. Neither changes the nesting.
pub use dh_laws::{
    down_undoes_up, free_after_up, not_free_after_up, shift_down_nesting, shift_up_nesting,
    up_undoes_down,
};

/// Substitution for a variable that is not free changes nothing, and a variable for which was substituted is not
/// free, unless it is free in what was put for it. What is put in adds at most its own nesting.
pub use dh_laws::{not_free_after_subst, subst_nesting, subst_not_free};

/// The α-normal form of what was shifted or substituted into, what an α-normal form keeps, and that it is its own
/// α-normal form.
pub use dh_laws::{
    alpha_nesting, alpha_of_shift_down, alpha_of_shift_up, alpha_of_subst, alpha_once,
    free_after_alpha,
};

/// The test of sameness is true exactly where two α-normal forms are equal, which is an equivalence.
pub use dh_laws::{same_decides, same_is_an_equivalence};

/// Indices that are below a limit and the number of binders of their name stay so under shifting, substitution and
/// α-normal forms; so they grow by no more than the depth.
pub use dh_laws::{
    indices_and_binders, indices_below_more, indices_of_alpha, indices_of_put, indices_of_shift_up,
    indices_of_subst, indices_put_under,
};
