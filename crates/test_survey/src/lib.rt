//! Runs of the survey of an image: each corrupt case of the layout with the line that is printed of
//! it, what is told of images that can be mounted, and the picture of the blocks.
#![tactic(auto)]

#[cfg(test)]
mod reasons;
#[cfg(test)]
mod told;
