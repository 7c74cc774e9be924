mod comparisons;
mod cut_drawings;
mod drawings;
mod joined_drawings;
mod places;
mod samples;
mod texts;
mod traces;
