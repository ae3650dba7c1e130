// Sperner's bound on families of coalitions, none inside another (document 02, K12). Each theorem is what a function without parameters ensures.
#![tactic(auto)]

ghost use Rattle.std.specs.Prelude.{◌≡◌, min};
ghost use Rattle.model.specs.Layers.{size, layer, largest_layer, room_for};
ghost use Rattle.sperner.specs.Antichains.{SpernersBound, BoundReached, LayersAreBinomial, MiddleLayerIsLargest, TwelveNames, MinimalAntichain, ShortFormsFit};

// A family of coalitions of n names, none inside another, has no more members than the largest number of coalitions of one size.
pub fn none_inside_another_is_at_most_a_largest_layer()
    ensures { SpernersBound }
{}

// For every n some such family has as many.
pub fn the_bound_is_reached()
    ensures { BoundReached }
{}

// Of n names, n over k coalitions have k members: a binomial coefficient.
pub fn layers_are_binomial()
    ensures { LayersAreBinomial }
{}

// The most coalitions have half of the names as members, rounded down.
pub fn the_middle_layer_is_the_largest()
    ensures { MiddleLayerIsLargest }
{}

// The largest layer of twelve names has 924 coalitions, and that of fewer names no more.
pub fn twelve_names_have_a_layer_of_924()
    ensures { TwelveNames }
{}

// A term's minimal coalitions on a side are a family with none inside another.
pub fn minimal_coalitions_are_none_inside_another()
    ensures { MinimalAntichain }
{}

// Every short form of up to twelve names fits 3,700 bytes.
pub fn short_forms_fit_3700_bytes()
    ensures { ShortFormsFit }
{}

// A coalition's size is its count of members.
pub fn size(coalition: u64) -> u32
    ensures { result ≡ size 64 coalition }
{
    u64::count_ones(coalition)
}

// How many coalitions of n names have k members. An n over 12 is taken as 12, here and below: a job has at most 12 names.
pub fn layer(n: u64, k: u32) -> u32
    ensures { result ≡ layer (min n 12) k }
{
    (0..1u64 << n.min(12)).filter(|c| size(*c) == k).count() as u32
}

// The largest number of coalitions of one size.
pub fn largest_layer(n: u64) -> u32
    ensures { result ≡ largest_layer (min n 12) }
{
    (0..=n.min(12) as u32).fold(0, |most, k| most.max(layer(n, k)))
}

// The bytes that hold every short form of n names: 3,700 for twelve.
pub fn room(n: u64) -> u32
    ensures { result ≡ room_for (min n 12) }
{
    2 * (2 + 2 * largest_layer(n))
}
