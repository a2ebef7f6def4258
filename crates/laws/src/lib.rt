// The theorems about the meaning stand in specs/. There is no code here.
