// Theorems alone: see specs.
